//! Joining one nonterminal with another.

ghost use Rattle.std.specs.Prelude.{◌≡◌, ◌<◌, ◌↔◌, IsTrue, true, false, length, IfOk};
ghost use Rattle.equal_sets.specs.Rows.{AreRows};
ghost use Rattle.equal_sets.specs.Fit.{IsSoFar, Joins, MayStand, is_done};

use crate::alike::{is_alias, is_equal};
use crate::renaming::set_of;
use crate::rows::{Rows, number_of};
use std::alloc::Global;
use text_base::{NoMemory, Nt};

/// For each nonterminal the one that stands for it, and whether that is settled.
#[derive(Drop)]
pub struct Sets {
    pub of: Vec<Nt>,
    pub done: Vec<bool>,
}

/// Each nonterminal stands for itself, and none is settled.
pub fn begin(alloc: Global, rows: &Rows<'_>) -> Result<Sets, NoMemory>
    requires { AreRows rows.now }
    ensures { IfOk result (λ sets. IsSoFar rows.now sets.of.items sets.done.items) }
{
    let mut of = Vec::new(alloc);
    let mut done = Vec::new(alloc);
    for n in 0..rows.system.grammar.count {
        of.push(Nt(n))?;
        done.push(false)?;
    }
    Ok(Sets { of, done })
}

/// Whether it is settled what stands for the nonterminal.
pub fn is_settled(sets: &Sets, a: Nt) -> bool
    ensures { result ≡ is_done sets.now.done.items a }
{
    match sets.done.get(a.0 as usize) {
        Some(done) => *done,
        None => false,
    }
}

/// Whether the second nonterminal is settled, stands for itself, and has no higher number than the
/// first.
fn may_stand(rows: &Rows<'_>, sets: &Sets, a: Nt, b: Nt) -> bool
    ensures { IsTrue result
        → MayStand rows.now.numbers.items sets.now.of.items sets.now.done.items a b }
{
    let numbers = rows.numbers.as_slice();
    is_settled(sets, b)
        && set_of(sets.of.as_slice(), b) == b
        && number_of(numbers, b) <= number_of(numbers, a)
}

/// Settles that the nonterminal stands for itself.
pub fn keep(rows: &Rows<'_>, sets: &mut Sets, a: Nt)
    requires rows { AreRows rows.now }
    requires so_far { IsSoFar rows.now sets.old.of.items sets.old.done.items }
    requires below { a.0 < rows.now.system.now.grammar.count }
    ensures { IsSoFar rows.now sets.new.of.items sets.new.done.items }
{
    let _ = rows;
    sets.done[a.0 as usize] = true;
}

/// Whether the second nonterminal may stand for the first: it is taken over, or has the same rows.
fn may_join(rows: &Rows<'_>, sets: &Sets, a: Nt, b: Nt) -> bool
    requires rows { AreRows rows.now }
    requires first { a.0 < rows.now.system.now.grammar.count }
    requires second { b.0 < rows.now.system.now.grammar.count }
    ensures { IsTrue result
        → Joins rows.now.system.now rows.now.numbers.items sets.now.of.items a b }
{
    let of = sets.of.as_slice();
    if is_alias(rows, of, a, b) {
        return true;
    }
    is_equal(rows, of, a, b)
}

/// Settles that the second nonterminal stands for the first, where it may and is equal. Whether it
/// does.
pub fn join(rows: &Rows<'_>, sets: &mut Sets, a: Nt, b: Nt) -> bool
    requires rows { AreRows rows.now }
    requires so_far { IsSoFar rows.now sets.old.of.items sets.old.done.items }
    requires below { a.0 < rows.now.system.now.grammar.count }
    requires unsettled { is_done sets.old.done.items a ≡ false }
    ensures { IsSoFar rows.now sets.new.of.items sets.new.done.items }
{
    if !may_stand(rows, sets, a, b) {
        return false;
    }
    if !may_join(rows, sets, a, b) {
        return false;
    }
    sets.of[a.0 as usize] = b;
    sets.done[a.0 as usize] = true;
    true
}
