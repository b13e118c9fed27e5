//! Derivations that are given production by production.

use cfg_grammar::{Grammar, Production, Right, Symbol};
use std::alloc::Global;
use text_base::NoMemory;

// Puts the symbols of a right side on those that are still open, the first one on top.
fn open_right(open: &mut Vec<Symbol>, right: Right) -> Result<(), NoMemory> {
    match right {
        Right::Empty => {}
        Right::One(symbol) => open.push(symbol)?,
        Right::Two(first, second) => {
            open.push(second)?;
            open.push(first)?;
        }
    }
    Ok(())
}

/// The text that a leftmost derivation from the start gives, each range as its first byte; None
/// where a production is not one of the grammar's, or not one of the leftmost nonterminal, where some
/// are left over, or after 100 symbols.
pub fn derived(
    alloc: Global,
    grammar: &Grammar,
    productions: &[Production],
) -> Result<Option<Vec<u8>>, NoMemory> {
    let mut open = Vec::new(alloc);
    open.push(Symbol::Nt(grammar.start))?;
    let mut text = Vec::new(alloc);
    let mut given = productions.iter();
    for _ in 0..100u8 {
        match open.pop() {
            Some(Symbol::Range(range)) => text.push(range.lo)?,
            Some(Symbol::Token(_)) => return Ok(None),
            Some(Symbol::Nt(left)) => match given.next() {
                Some(next) if next.left == left && grammar.productions.contains(next) => {
                    open_right(&mut open, next.right)?;
                }
                _ => return Ok(None),
            },
            None => {
                return Ok(match given.next() {
                    Some(_) => None,
                    None => Some(text),
                });
            }
        }
    }
    Ok(None)
}
