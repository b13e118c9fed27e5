//! Whether one nonterminal may stand for another.

ghost use Rattle.std.specs.Prelude.{◌≡◌, ◌<◌, IsTrue, length};
ghost use Rattle.equal_sets.specs.Rows.{AreRows};
ghost use Rattle.equal_sets.specs.Alike.{AreAlikeAt, AreSameAt, ArePaired, LeadsLower, IsEqual, IsAlias};

use crate::renaming::{right_of, set_of};
use crate::rows::{Rows, number_of, places_at};
use crate::same::{is_same_op, is_same_right};
use cfg_grammar::{Right, Symbol};
use op_bytes::is_circular;
use text_base::Nt;

/// Whether the productions at two places have one right side by the sets.
fn are_alike_at(rows: &Rows<'_>, sets: &[Nt], i: usize, j: usize) -> bool
    ensures { IsTrue result
        → AreAlikeAt rows.now.system.now.grammar.productions.items sets.now i j }
{
    let productions = rows.system.grammar.productions.as_slice();
    match (productions.get(i), productions.get(j)) {
        (Some(p), Some(q)) => is_same_right(right_of(sets, p.right), right_of(sets, q.right)),
        _ => false,
    }
}

/// Whether the rules at two places have one operation on one operand by the sets, and both are in
/// a cycle or both are in none.
fn are_same_at(rows: &Rows<'_>, sets: &[Nt], i: usize, j: usize) -> bool
    requires { AreRows rows.now }
    ensures { IsTrue result → AreSameAt rows.now.system.now sets.now i j }
{
    let rules = rows.system.ops.as_slice();
    let numbers = rows.numbers.as_slice();
    match (rules.get(i), rules.get(j)) {
        (Some(r), Some(q)) => {
            is_same_op(&r.op, &q.op)
                && set_of(sets, r.operand) == set_of(sets, q.operand)
                && is_circular(rows.system, numbers, r) == is_circular(rows.system, numbers, q)
        }
        _ => false,
    }
}

/// Whether productions at places are alike, one by one.
fn are_rights_paired(rows: &Rows<'_>, sets: &[Nt], xs: &[usize], ys: &[usize]) -> bool
    ensures { IsTrue result → ArePaired
        (AreAlikeAt rows.now.system.now.grammar.productions.items sets.now) xs.now ys.now }
{
    if xs.len() != ys.len() {
        return false;
    }
    for k in 0..xs.len() {
        if !are_alike_at(rows, sets, xs[k], ys[k]) {
            return false;
        }
    }
    true
}

/// Whether rules at places are the same, one by one.
fn are_rules_paired(rows: &Rows<'_>, sets: &[Nt], xs: &[usize], ys: &[usize]) -> bool
    requires { AreRows rows.now }
    ensures { IsTrue result → ArePaired (AreSameAt rows.now.system.now sets.now) xs.now ys.now }
{
    if xs.len() != ys.len() {
        return false;
    }
    for k in 0..xs.len() {
        if !are_same_at(rows, sets, xs[k], ys[k]) {
            return false;
        }
    }
    true
}

/// Whether two nonterminals have the same rows by the sets, one by one.
pub fn is_equal(rows: &Rows<'_>, sets: &[Nt], a: Nt, b: Nt) -> bool
    requires rows { AreRows rows.now }
    requires first { a.0 < rows.now.system.now.grammar.count }
    requires second { b.0 < rows.now.system.now.grammar.count }
    ensures { IsTrue result → IsEqual rows.now.system.now sets.now a b }
{
    let rights = rows.rights.as_slice();
    let rules = rows.rules.as_slice();
    are_rights_paired(rows, sets, places_at(rights, a), places_at(rights, b))
        && are_rules_paired(rows, sets, places_at(rules, a), places_at(rules, b))
}

/// Whether the production at a place is one nonterminal with a lower number, for which the second
/// stands.
fn leads_lower(rows: &Rows<'_>, sets: &[Nt], a: Nt, b: Nt, place: usize) -> bool
    ensures { IsTrue result
        → LeadsLower rows.now.system.now rows.now.numbers.items sets.now a b place }
{
    let numbers = rows.numbers.as_slice();
    match rows
        .system
        .grammar
        .productions
        .as_slice()
        .get(place)
        .copied()
    {
        Some(p) => match p.right {
            Right::One(Symbol::Nt(c)) => {
                set_of(sets, c) == b && number_of(numbers, c) < number_of(numbers, a)
            }
            _ => false,
        },
        None => false,
    }
}

/// Whether the first nonterminal takes over sets for which the second stands, and nothing else.
pub fn is_alias(rows: &Rows<'_>, sets: &[Nt], a: Nt, b: Nt) -> bool
    requires rows { AreRows rows.now }
    requires first { a.0 < rows.now.system.now.grammar.count }
    ensures { IsTrue result → IsAlias rows.now.system.now rows.now.numbers.items sets.now a b }
{
    let places = places_at(rows.rights.as_slice(), a);
    if places.is_empty() {
        return false;
    }
    let rules = places_at(rows.rules.as_slice(), a);
    if !rules.is_empty() {
        return false;
    }
    for place in places {
        if !leads_lower(rows, sets, a, b, *place) {
            return false;
        }
    }
    true
}
