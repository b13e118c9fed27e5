//! At which productions each nonterminal stands on a side.

ghost use Rattle.std.specs.Prelude.{◌≡◌, ◌↔◌, ◌+◌, false, get_or, length, map, IfOk};
ghost use Rattle.text_base.specs.declared.numbers.Nt as nt;
ghost use Rattle.useful_nonterminals.specs.Rules.{number_in};
ghost use Rattle.useful_nonterminals.specs.Follows.{IsMarked};
ghost use Rattle.useful_nonterminals.specs.Useful.{IsUseful};
ghost use Rattle.summary_decision.specs.Joints.{number_by, AreUses};
ghost use Rattle.summary_decision.specs.Using.{key_of};

use crate::Side;
use cfg_grammar::{Grammar, Production, Right, Symbol};
use numbered_sets::{Chains, chains_of};
use std::alloc::Global;
use text_base::NoMemory;

/// For each nonterminal, a chain of the places where it stands on each side.
#[derive(Drop)]
pub struct Uses {
    pub firsts: Chains,
    pub seconds: Chains,
}

/// Whether a number is marked.
pub fn is_marked(marks: &[bool], n: u64) -> bool
    ensures { result ≡ get_or marks.now n false }
{
    match marks.get(n as usize) {
        Some(mark) => *mark,
        None => false,
    }
}

/// The number of a symbol that is a nonterminal.
fn number(symbol: Symbol) -> Option<u64>
    ensures { result ≡ number_in symbol }
{
    match symbol {
        Symbol::Range(_) => None,
        Symbol::Token(_) => None,
        Symbol::Nt(a) => Some(a.0),
    }
}

/// The number of the nonterminal on a side; one that stands alone is on the first.
fn number_on(side: Side, right: Right) -> Option<u64>
    ensures { result ≡ number_by side right }
{
    match (side, right) {
        (_, Right::Empty) => None,
        (Side::First, Right::One(a)) => number(a),
        (Side::Second, Right::One(_)) => None,
        (Side::First, Right::Two(a, _)) => number(a),
        (Side::Second, Right::Two(_, b)) => number(b),
    }
}

/// The number on whose chain a production stands: the count, where it is not to be found.
fn key(side: Side, count: u64, useful: &[bool], production: Production) -> u64
    ensures { result ≡ key_of count (get_or useful.now production.left.0 false)
        (number_by side production.right) }
{
    if !is_marked(useful, production.left.0) {
        return count;
    }
    match number_on(side, production.right) {
        None => count,
        Some(a) => a,
    }
}

/// The numbers on whose chains productions stand.
fn all_keys(
    alloc: Global,
    side: Side,
    count: u64,
    useful: &[bool],
    productions: &[Production],
) -> Result<Vec<u64>, NoMemory>
    ensures { IfOk result (λ keys. keys.items ≡
        map (λ p. key_of count (get_or useful.now p.left.0 false) (number_by side p.right))
        productions.now) }
{
    let mut keys = Vec::new(alloc);
    for production in productions {
        keys.push(key(side, count, useful, *production))?;
    }
    Ok(keys)
}

/// A chain for each nonterminal, of the places of the productions with useful left sides in which it
/// stands on the side. Linear.
pub fn uses_on(
    alloc: Global,
    side: Side,
    grammar: &Grammar,
    useful: &[bool],
) -> Result<Chains, NoMemory>
    requires { (a : nt.Nt)
        → IsMarked useful.now a.0 ↔ IsUseful grammar.now.productions.items grammar.now.start a }
    ensures len { IfOk result (λ uses. length uses.last.items ≡ grammar.now.count + 1) }
    ensures exact { IfOk result
        (λ uses. AreUses side grammar.now.productions.items grammar.now.start
        grammar.now.count uses) }
{
    let Some(numbers) = grammar.count.checked_add(1) else {
        return Err(NoMemory);
    };
    let keys = all_keys(
        alloc,
        side,
        grammar.count,
        useful,
        grammar.productions.as_slice(),
    )?;
    let uses = chains_of(alloc, numbers, keys.as_slice())?;
    Ok(uses)
}
