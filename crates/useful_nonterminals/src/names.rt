//! New numbers for the nonterminals that stay.

ghost use Rattle.std.specs.Prelude.{◌≡◌, ◌↔◌, ◌<◌, ◌≤◌, ◌+◌, IsTrue, None, Some, if◌then◌else◌, length, slice_index_or, IfOk};
ghost use Rattle.text_base.specs.declared.numbers.Nt as nt;
ghost use Rattle.useful_nonterminals.specs.Naming as spec;
ghost use Rattle.useful_nonterminals.specs.Naming.{Stays, IsNaming};

use cfg_grammar::{Production, Right, Symbol};
use std::alloc::Global;
use text_base::{NoMemory, Nt};

/// The numbers of nonterminals: none for one that does not stay.
#[derive(Debug, Drop)]
pub struct Names {
    pub names: Vec<Option<u64>>,
    /// How many there are.
    pub count: u64,
}

/// Whether the nonterminal stays.
fn stays(useful: &[bool], start: u64, number: usize) -> bool
    requires { number < length useful.now }
    ensures { IsTrue result ↔ Stays useful.now start number }
{
    if useful[number] {
        return true;
    }
    number as u64 == start
}

fn name(stays: bool, count: u64) -> Option<u64>
    ensures { result ≡ (if stays then Some count else None) }
{
    if stays { Some(count) } else { None }
}

fn more(stays: bool, count: u64) -> u64
    requires { count < 18446744073709551615 }
    ensures { result ≡ (if stays then count + 1 else count) }
{
    if stays { count + 1 } else { count }
}

/// The names of the start and of the useful ones.
pub fn names_of(alloc: Global, useful: &[bool], start: u64) -> Result<Names, NoMemory>
    ensures naming { IfOk result (λ n. IsNaming useful.now start n.names.items n.count) }
    ensures all { IfOk result (λ n. length n.names.items ≡ length useful.now) }
    ensures few { IfOk result (λ n. n.count ≤ length useful.now) }
{
    let mut names = Vec::new(alloc);
    let mut count = 0;
    for number in 0..useful.len() {
        let stays = stays(useful, start, number);
        names.push(name(stays, count))?;
        count = more(stays, count);
    }
    Ok(Names { names, count })
}

/// The name of a nonterminal.
pub fn name_of(names: &[Option<u64>], nonterminal: Nt) -> Option<u64>
    ensures { result ≡ spec.name_at names.now nonterminal }
{
    match names.get(nonterminal.0 as usize) {
        Some(name) => *name,
        None => None,
    }
}

fn named_symbol(names: &[Option<u64>], symbol: Symbol) -> Option<Symbol>
    ensures { result ≡ spec.named_symbol names.now symbol }
{
    match symbol {
        Symbol::Range(range) => Some(Symbol::Range(range)),
        Symbol::Token(token) => Some(Symbol::Token(token)),
        Symbol::Nt(a) => match name_of(names, a) {
            None => None,
            Some(name) => Some(Symbol::Nt(Nt(name))),
        },
    }
}

fn two(a: Option<Symbol>, b: Option<Symbol>) -> Option<Right>
    ensures { result ≡ spec.as_two a b }
{
    match (a, b) {
        (None, _) => None,
        (Some(_), None) => None,
        (Some(a), Some(b)) => Some(Right::Two(a, b)),
    }
}

fn named_right(names: &[Option<u64>], right: Right) -> Option<Right>
    ensures { result ≡ spec.named_right names.now right }
{
    match right {
        Right::Empty => Some(Right::Empty),
        Right::One(a) => match named_symbol(names, a) {
            None => None,
            Some(a) => Some(Right::One(a)),
        },
        Right::Two(a, b) => two(named_symbol(names, a), named_symbol(names, b)),
    }
}

/// The production, where each of its nonterminals has a name.
pub fn named_production(names: &[Option<u64>], production: Production) -> Option<Production>
    ensures { result ≡ spec.named_production names.now production }
{
    match (
        name_of(names, production.left),
        named_right(names, production.right),
    ) {
        (None, _) => None,
        (Some(_), None) => None,
        (Some(left), Some(right)) => Some(Production {
            left: Nt(left),
            right,
        }),
    }
}
