//! The pass over all nonterminals, those first on which others depend.

ghost use Rattle.std.specs.Prelude.{◌≡◌, ◌<◌, All, length, IfOk, OnOk};
ghost use Rattle.numbered_sets.specs.Chains.{Falls};
ghost use Rattle.equal_sets.specs.Rows.{AreRows};
ghost use Rattle.equal_sets.specs.Fit.{IsSoFar};

use crate::joining::{Sets, begin, is_settled, join, keep};
use crate::prints::print_of;
use crate::renaming::set_of;
use crate::rows::{Rows, places_at};
use cfg_grammar::{Right, Symbol};
use indexmap::IndexMap;
use numbered_sets::{Chains, chains_of};
use std::alloc::Global;
use text_base::{NoMemory, Nt};

/// What stands for the first set that a nonterminal takes over, if its first row does so.
fn first_of(rows: &Rows<'_>, sets: &[Nt], a: Nt) -> Option<Nt>
    requires rows { AreRows rows.now }
    requires below { a.0 < rows.now.system.now.grammar.count }
{
    let place = *places_at(rows.rights.as_slice(), a).first()?;
    let p = rows
        .system
        .grammar
        .productions
        .as_slice()
        .get(place)
        .copied()?;
    match p.right {
        Right::One(Symbol::Nt(c)) => Some(set_of(sets, c)),
        _ => None,
    }
}

/// Settles what stands for a nonterminal: one that is settled and equal, or itself.
fn take_up(
    rows: &Rows<'_>,
    sets: &mut Sets,
    seen: &mut IndexMap<u64, u64>,
    a: Nt,
) -> Result<(), NoMemory>
    requires rows { AreRows rows.now }
    requires so_far { IsSoFar rows.now sets.old.of.items sets.old.done.items }
    ensures { IsSoFar rows.now sets.new.of.items sets.new.done.items }
{
    if a.0 >= rows.system.grammar.count || is_settled(sets, a) {
        return Ok(());
    }
    if let Some(b) = first_of(rows, sets.of.as_slice(), a) {
        if join(rows, sets, a, b) {
            return Ok(());
        }
    }
    if is_settled(sets, a) {
        return Ok(());
    }
    let print = print_of(rows, sets.of.as_slice(), a);
    if let Some(b) = seen.get(&print).copied() {
        if join(rows, sets, a, Nt(b)) {
            return Ok(());
        }
    }
    keep(rows, sets, a);
    seen.insert(print, a.0)?;
    Ok(())
}

/// Takes up the nonterminals of a number.
fn take_number(
    rows: &Rows<'_>,
    chains: &Chains,
    sets: &mut Sets,
    seen: &mut IndexMap<u64, u64>,
    number: u64,
) -> Result<(), NoMemory>
    requires rows { AreRows rows.now }
    requires number { number < length chains.now.last.items }
    requires falls { Falls chains.now.before.items }
    requires so_far { IsSoFar rows.now sets.old.of.items sets.old.done.items }
    ensures { IsSoFar rows.now sets.new.of.items sets.new.done.items }
{
    let mut place = chains.last_place(number);
    while let Some(next) = chains.place_before(place) {
        take_up(rows, sets, seen, Nt(place as u64))?;
        place = next;
    }
    Ok(())
}

/// A number below the count, which is the number itself where that is below it.
fn within(number: usize, count: u64) -> u64
    requires { 0 < count }
    ensures { result < count }
{
    if (number as u64) < count {
        number as u64
    } else {
        count - 1
    }
}

/// The nonterminals of each number, as chains.
fn by_number(alloc: Global, rows: &Rows<'_>) -> Result<Chains, NoMemory>
    requires { AreRows rows.now }
    ensures count { IfOk result
        (λ chains. length chains.last.items ≡ rows.now.system.now.grammar.count) }
    ensures falls { IfOk result (λ chains. Falls chains.before.items) }
{
    let count = rows.system.grammar.count;
    let mut keys = Vec::new(alloc);
    for number in rows.numbers.as_slice() {
        keys.push(within(*number, count))?;
    }
    let chains = chains_of(alloc, count, keys.as_slice())?;
    Ok(chains)
}

/// What stands for each nonterminal. Linear in the system.
pub fn all_sets(alloc: Global, rows: &Rows<'_>) -> Result<Sets, NoMemory>
    requires { AreRows rows.now }
    ensures { IfOk result (λ sets. IsSoFar rows.now sets.of.items sets.done.items) }
{
    let chains = by_number(alloc, rows)?;
    let mut sets = begin(alloc, rows)?;
    let mut seen = IndexMap::new(alloc);
    for number in 0..rows.system.grammar.count {
        take_number(rows, &chains, &mut sets, &mut seen, number)?;
    }
    Ok(sets)
}
