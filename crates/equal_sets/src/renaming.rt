//! What stands for nonterminals, and rows by it.

ghost use Rattle.std.specs.Prelude.{◌≡◌, ◌↔◌, IsTrue, slice_index_or};
ghost use Rattle.equal_sets.specs.Sets as spec;

use crate::same::is_same_nt;
use cfg_grammar::{Production, Right, Symbol};
use text_base::Nt;

/// The nonterminal that stands for one.
pub fn set_of(sets: &[Nt], a: Nt) -> Nt
    ensures { result ≡ spec.set_of sets.now a }
{
    match sets.get(a.0 as usize) {
        Some(set) => *set,
        None => a,
    }
}

/// Whether the nonterminal stands for itself.
pub fn stands(sets: &[Nt], a: Nt) -> bool
    ensures { IsTrue result ↔ (spec.set_of sets.now a ≡ a) }
{
    is_same_nt(set_of(sets, a), a)
}

fn symbol_of(sets: &[Nt], symbol: Symbol) -> Symbol
    ensures { result ≡ spec.symbol_of sets.now symbol }
{
    match symbol {
        Symbol::Range(range) => Symbol::Range(range),
        Symbol::Token(token) => Symbol::Token(token),
        Symbol::Nt(a) => Symbol::Nt(set_of(sets, a)),
    }
}

/// The right side by what stands for its nonterminals.
pub fn right_of(sets: &[Nt], right: Right) -> Right
    ensures { result ≡ spec.right_of sets.now right }
{
    match right {
        Right::Empty => Right::Empty,
        Right::One(a) => Right::One(symbol_of(sets, a)),
        Right::Two(a, b) => Right::Two(symbol_of(sets, a), symbol_of(sets, b)),
    }
}

/// The production by what stands for its nonterminals.
pub fn production_of(sets: &[Nt], production: Production) -> Production
    ensures { result ≡ spec.production_of sets.now production }
{
    Production {
        left: set_of(sets, production.left),
        right: right_of(sets, production.right),
    }
}
