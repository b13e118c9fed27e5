//! Passing bytes on.

ghost use Rattle.std.specs.Prelude.{◌≡◌, ◌<◌, ◌↔◌, ℕ, false, All, length, slice_get, OnOk};
ghost use Rattle.text_base.specs.ByteSet.{Has};
ghost use Rattle.op_system.specs.Rules.{RulesAreBelow};
ghost use Rattle.std.specs.Option.{option_copied};
ghost use Rattle.op_bytes.specs.Work.{Grows, GivesUse, GivesRule, IsUseAt, IsRuleAt};

use crate::turning::turned;
use crate::uses::Use;
use op_system::OpRule;
use text_base::{ByteSet, NoMemory};

/// Whether the first set has a byte that the second has not.
fn has_more(extra: &ByteSet, set: &ByteSet) -> bool
    ensures { result ≡ false → (b : ℕ) → b < 256 → Has extra.now b → Has set.now b }
{
    for byte in 0..=255_u8 {
        if extra.has(byte) && !set.has(byte) {
            return true;
        }
    }
    false
}

/// A second set with the same bytes.
pub fn copy_of(set: &ByteSet) -> ByteSet
    ensures { (b : ℕ) → b < 256 → Has result b ↔ Has set.now b }
{
    let mut copy = ByteSet::empty();
    copy.join(set);
    copy
}

/// Gives a set further bytes, and puts its number behind the others where it has new ones.
fn grow(
    sets: &mut Vec<ByteSet>,
    order: &mut Vec<u64>,
    target: u64,
    extra: &ByteSet,
) -> Result<(), NoMemory>
    requires { target < length sets.old.items }
    ensures { OnOk result
        (Grows sets.old.items order.old.items (λ a b. (a ≡ target) × Has extra.now b) sets.new.items
        order.new.items) }
{
    if !has_more(extra, &sets[target as usize]) {
        return Ok(());
    }
    order.push(target)?;
    sets[target as usize].join(extra);
    Ok(())
}

/// The use at a place.
fn use_at(uses: &[Use], place: usize) -> Option<Use>
    ensures { result ≡ slice_get uses.now place }
{
    uses.get(place).copied()
}

/// The rule at a place.
fn rule_at(rules: &[OpRule], place: usize) -> Option<&OpRule>
    ensures { option_copied result ≡ slice_get rules.now place }
{
    rules.get(place)
}

/// Gives the bytes to the left side of the use at a place.
fn pass_use(
    sets: &mut Vec<ByteSet>,
    order: &mut Vec<u64>,
    uses: &[Use],
    place: usize,
    own: &ByteSet,
) -> Result<(), NoMemory>
    requires { All (λ u. u.to < length sets.old.items) uses.now }
    ensures { OnOk result
        (Grows sets.old.items order.old.items (IsUseAt uses.now place own.now) sets.new.items
        order.new.items) }
{
    let Some(found) = use_at(uses, place) else {
        return Ok(());
    };
    grow(sets, order, found.to, own)
}

/// Gives what an operation makes of the bytes to the left side of the rule at a place.
fn pass_rule(
    sets: &mut Vec<ByteSet>,
    order: &mut Vec<u64>,
    rules: &[OpRule],
    place: usize,
    own: &ByteSet,
) -> Result<(), NoMemory>
    requires { RulesAreBelow (length sets.old.items) rules.now }
    ensures { OnOk result
        (Grows sets.old.items order.old.items (IsRuleAt rules.now place own.now) sets.new.items
        order.new.items) }
{
    let Some(rule) = rule_at(rules, place) else {
        return Ok(());
    };
    let made = turned(&rule.op, own);
    grow(sets, order, rule.left.0, &made)
}

/// Gives the bytes to all that use the nonterminal with them in a production.
pub fn pass_uses(
    sets: &mut Vec<ByteSet>,
    order: &mut Vec<u64>,
    uses: &[Use],
    places: &[usize],
    own: &ByteSet,
) -> Result<(), NoMemory>
    requires { All (λ u. u.to < length sets.old.items) uses.now }
    ensures { OnOk result
        (Grows sets.old.items order.old.items
        (GivesUse uses.now places.now (length places.now) own.now) sets.new.items order.new.items) }
{
    for place in places {
        pass_use(sets, order, uses, *place, own)?;
    }
    Ok(())
}

/// Gives what operations make of the bytes to all that use the nonterminal with them in a rule.
pub fn pass_rules(
    sets: &mut Vec<ByteSet>,
    order: &mut Vec<u64>,
    rules: &[OpRule],
    places: &[usize],
    own: &ByteSet,
) -> Result<(), NoMemory>
    requires { RulesAreBelow (length sets.old.items) rules.now }
    ensures { OnOk result
        (Grows sets.old.items order.old.items
        (GivesRule rules.now places.now (length places.now) own.now) sets.new.items order.new.items) }
{
    for place in places {
        pass_rule(sets, order, rules, *place, own)?;
    }
    Ok(())
}
