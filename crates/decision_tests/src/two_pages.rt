//! A grammar of two pages.

use cfg_grammar::{Grammar, Production, Right, Symbol};
use std::alloc::Global;
use text_base::{ByteRange, NoMemory, Nt};

// Productions by which a nonterminal derives a text, a byte and then the next nonterminal. Answers
// the number behind those that they use.
fn push_text(productions: &mut Vec<Production>, first: u64, text: &[u8]) -> Result<u64, NoMemory> {
    let mut number = first;
    for byte in text {
        let range = ByteRange {
            lo: *byte,
            hi: *byte,
        };
        let next = number.wrapping_add(1);
        productions.push(Production {
            left: Nt(number),
            right: Right::Two(Symbol::Range(range), Symbol::Nt(Nt(next))),
        })?;
        number = next;
    }
    productions.push(Production {
        left: Nt(number),
        right: Right::Empty,
    })?;
    Ok(number.wrapping_add(1))
}

/// The grammar of a text with one of two texts behind it.
pub fn two_pages(
    alloc: Global,
    front: &[u8],
    one: &[u8],
    other: &[u8],
) -> Result<Option<Grammar>, NoMemory> {
    let mut productions = Vec::new(alloc);
    productions.push(Production {
        left: Nt(0),
        right: Right::Two(Symbol::Nt(Nt(2)), Symbol::Nt(Nt(1))),
    })?;
    let first = push_text(&mut productions, 2, front)?;
    productions.push(Production {
        left: Nt(1),
        right: Right::One(Symbol::Nt(Nt(first))),
    })?;
    let second = push_text(&mut productions, first, one)?;
    productions.push(Production {
        left: Nt(1),
        right: Right::One(Symbol::Nt(Nt(second))),
    })?;
    let count = push_text(&mut productions, second, other)?;
    Ok(Grammar::new(Nt(0), count, productions))
}
