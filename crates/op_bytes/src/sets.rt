//! The byte sets of a system.

ghost use Rattle.std.specs.Prelude.{◌≡◌, ◌<◌, ◌↔◌, ℕ, Contains, All, vec_len, length, map, slice_get, Some, IfOk, OnOk};
ghost use Rattle.numbered_sets.specs.Places.{ArePlaces};
ghost use Rattle.op_bytes.specs.Bytes.{AreByteSets};
ghost use Rattle.op_bytes.specs.Work.{AreFirstSets, AreNumbersBelow, Grows, IsPassed, uses_of};

use crate::beginning::{add_literals, add_ranges, no_sets};
use crate::fitting::fits;
use crate::passing::{copy_of, pass_rules, pass_uses};
use crate::uses::{Use, add_productions};
use numbered_sets::places_by;
use op_system::{OpRule, OpSystem};
use std::alloc::Global;
use text_base::{ByteSet, NoMemory};

/// The number at a place.
fn number_at(order: &[u64], place: usize) -> Option<u64>
    ensures { result ≡ slice_get order.now place }
{
    order.get(place).copied()
}

/// For each nonterminal, the places of its uses.
fn by_use(alloc: Global, count: u64, uses: &[Use]) -> Result<Vec<Vec<usize>>, NoMemory>
    requires { All (λ u. u.from < count) uses.now }
    ensures len { IfOk result (λ places. vec_len places ≡ count) }
    ensures exact { IfOk result (λ places. ArePlaces (map (λ u. u.from) uses.now) places.items) }
{
    let keys: Vec<u64> = uses.iter().map(|u| u.from).collect(alloc)?;
    let places = places_by(alloc, count, keys.as_slice())?;
    Ok(places)
}

/// For each nonterminal, the places of the rules whose operand it is.
fn by_operand(alloc: Global, count: u64, rules: &[OpRule]) -> Result<Vec<Vec<usize>>, NoMemory>
    requires { All (λ r. r.operand.0 < count) rules.now }
    ensures len { IfOk result (λ places. vec_len places ≡ count) }
    ensures exact { IfOk result
        (λ places. ArePlaces (map (λ r. r.operand.0) rules.now) places.items) }
{
    let keys: Vec<u64> = rules.iter().map(|r| r.operand.0).collect(alloc)?;
    let places = places_by(alloc, count, keys.as_slice())?;
    Ok(places)
}

/// The numbers below the count, in turn.
fn all_numbers(alloc: Global, count: u64) -> Result<Vec<u64>, NoMemory>
    ensures { IfOk result (λ order. AreNumbersBelow count order.items) }
{
    let mut order = Vec::new(alloc);
    for n in 0..count {
        order.push(n)?;
    }
    Ok(order)
}

/// The sets with the bytes that stand in the system alone.
fn first_sets(alloc: Global, s: &OpSystem) -> Result<Vec<ByteSet>, NoMemory>
    ensures { IfOk result (λ sets. AreFirstSets s.now sets.items) }
{
    let mut sets = no_sets(alloc, s.grammar.count)?;
    add_ranges(&mut sets, s.grammar.productions.as_slice());
    add_literals(&mut sets, s.ops.as_slice());
    Ok(sets)
}

/// All uses of nonterminals in productions.
fn all_uses(alloc: Global, s: &OpSystem) -> Result<Vec<Use>, NoMemory>
    ensures { IfOk result (λ uses. uses.items ≡ uses_of s.now.grammar.productions.items) }
{
    let mut uses = Vec::new(alloc);
    add_productions(&mut uses, s.grammar.productions.as_slice())?;
    Ok(uses)
}

/// Passes the bytes of a nonterminal on.
fn take_up(
    s: &OpSystem,
    uses: &[Use],
    at_uses: &[usize],
    at_rules: &[usize],
    sets: &mut Vec<ByteSet>,
    order: &mut Vec<u64>,
    x: u64,
) -> Result<(), NoMemory>
    requires uses { uses.now ≡ uses_of s.now.grammar.productions.items }
    requires at_uses { (i : ℕ)
        → Contains at_uses.now i ↔ (slice_get (map (λ u. u.from) uses.now) i ≡ Some x) }
    requires at_rules { (i : ℕ)
        → Contains at_rules.now i ↔ (slice_get (map (λ r. r.operand.0) s.now.ops.items) i ≡ Some x) }
    requires size { length sets.old.items ≡ s.now.grammar.count }
    requires below { x < s.now.grammar.count }
    ensures { OnOk result
        (Grows sets.old.items order.old.items (IsPassed s.now sets.old.items x) sets.new.items
        order.new.items) }
{
    let own = copy_of(&sets[x as usize]);
    pass_uses(sets, order, uses, at_uses, &own)?;
    pass_rules(sets, order, s.ops.as_slice(), at_rules, &own)
}

/// For each nonterminal its set of bytes: the bytes of the texts of its set, where those of an
/// operation's outputs are said by the bytes of its inputs alone. Each set is passed on again where
/// it has grown, at most 256 times.
pub fn byte_sets(alloc: Global, s: &OpSystem) -> Result<Vec<ByteSet>, NoMemory>
    ensures { IfOk result (λ sets. AreByteSets s.now sets.items) }
{
    fits(s);
    let uses = all_uses(alloc, s)?;
    let at_uses = by_use(alloc, s.grammar.count, uses.as_slice())?;
    let at_rules = by_operand(alloc, s.grammar.count, s.ops.as_slice())?;
    let mut sets = first_sets(alloc, s)?;
    let mut order = all_numbers(alloc, s.grammar.count)?;
    let mut taken = 0;
    while let Some(x) = number_at(order.as_slice(), taken) {
        let uses_of_it = at_uses[x as usize].as_slice();
        let rules_of_it = at_rules[x as usize].as_slice();
        take_up(
            s,
            uses.as_slice(),
            uses_of_it,
            rules_of_it,
            &mut sets,
            &mut order,
            x,
        )?;
        taken += 1;
    }
    Ok(sets)
}
