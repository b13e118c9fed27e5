//! The rows of each nonterminal of a system.

ghost use Rattle.std.specs.Prelude.{◌≡◌, ◌<◌, ◌↔◌, ℕ, List, Some, All, Contains, map, length, vec_len, slice_get, slice_index_or, IfOk};
ghost use Rattle.numbered_sets.specs.Places.{ArePlaces};
ghost use Rattle.equal_sets.specs.Rows.{AreRows};
ghost use Rattle.equal_sets.specs.Alike as spec;

use cfg_grammar::Production;
use numbered_sets::places_by;
use op_bytes::numbers;
use op_system::{OpRule, OpSystem};
use std::alloc::Global;
use text_base::{NoMemory, Nt};

/// A system with its numbers, and the places of the productions and rules of each nonterminal.
#[derive(Drop)]
pub struct Rows<'a> {
    pub system: &'a OpSystem,
    pub numbers: Vec<usize>,
    pub rights: Vec<Vec<usize>>,
    pub rules: Vec<Vec<usize>>,
}

/// The places of the productions of each nonterminal.
fn rights_of(
    alloc: Global,
    count: u64,
    productions: &[Production],
) -> Result<Vec<Vec<usize>>, NoMemory>
    requires { All (λ p. p.left.0 < count) productions.now }
    ensures count { IfOk result (λ lists. vec_len lists ≡ count) }
    ensures places { IfOk result
        (λ lists. ArePlaces (map (λ p. p.left.0) productions.now) lists.items) }
{
    let keys: Vec<u64> = productions.iter().map(|p| p.left.0).collect(alloc)?;
    let places = places_by(alloc, count, keys.as_slice())?;
    Ok(places)
}

/// The places of the rules of each nonterminal.
fn rules_of(alloc: Global, count: u64, rules: &[OpRule]) -> Result<Vec<Vec<usize>>, NoMemory>
    requires { All (λ r. r.left.0 < count) rules.now }
    ensures count { IfOk result (λ lists. vec_len lists ≡ count) }
    ensures places { IfOk result
        (λ lists. ArePlaces (map (λ r. r.left.0) rules.now) lists.items) }
{
    let keys: Vec<u64> = rules.iter().map(|r| r.left.0).collect(alloc)?;
    let places = places_by(alloc, count, keys.as_slice())?;
    Ok(places)
}

/// The rows of a system. Linear in it.
pub fn rows_of(alloc: Global, s: &OpSystem) -> Result<Rows<'_>, NoMemory>
    ensures system { IfOk result (λ rows. rows.system.now ≡ s.now) }
    ensures rows { IfOk result AreRows }
{
    let numbers = numbers(alloc, s)?;
    let rights = rights_of(alloc, s.grammar.count, s.grammar.productions.as_slice())?;
    let rules = rules_of(alloc, s.grammar.count, s.ops.as_slice())?;
    Ok(Rows {
        system: s,
        numbers,
        rights,
        rules,
    })
}

/// The places in the list of a nonterminal.
pub fn places_at(lists: &[Vec<usize>], a: Nt) -> &[usize]
    requires { a.0 < length lists.now }
    ensures { (keys : List ℕ) → ArePlaces keys lists.now → (i : ℕ)
        → Contains result.now i ↔ (slice_get keys i ≡ Some a.0) }
{
    lists[a.0 as usize].as_slice()
}

/// The number of a nonterminal, 0 where it has none.
pub fn number_of(numbers: &[usize], a: Nt) -> usize
    ensures { result ≡ spec.number_of numbers.now a }
{
    match numbers.get(a.0 as usize) {
        Some(number) => *number,
        None => 0,
    }
}
