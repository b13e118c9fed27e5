//! Whether a grammar derives a word of up to eight bytes, by trying all cuts.

use cfg_grammar::{Grammar, Production, Right, Symbol};
use std::alloc::Global;
use text_base::{NoMemory, Nt};

/// A nonterminal that derives the bytes from one place up to another.
#[derive(Clone, Copy, PartialEq, Eq)]
struct Span {
    nt: u64,
    from: u64,
    to: u64,
}

fn symbol_derives(found: &Vec<Span>, word: &[u8], symbol: Symbol, from: u64, to: u64) -> bool {
    match symbol {
        Symbol::Nt(a) => found
            .iter()
            .any(|s| s.nt == a.0 && s.from == from && s.to == to),
        Symbol::Range(range) => {
            from < to
                && to - from == 1
                && match word.get(from as usize) {
                    Some(byte) => range.lo <= *byte && *byte <= range.hi,
                    None => false,
                }
        }
        Symbol::Token(_) => false,
    }
}

fn right_derives(found: &Vec<Span>, word: &[u8], right: &Right, from: u64, to: u64) -> bool {
    match right {
        Right::Empty => from == to,
        Right::One(symbol) => symbol_derives(found, word, *symbol, from, to),
        Right::Two(first, second) => {
            let mut is_cut = false;
            for cut in from..9 {
                if cut <= to
                    && symbol_derives(found, word, *first, from, cut)
                    && symbol_derives(found, word, *second, cut, to)
                {
                    is_cut = true;
                }
            }
            is_cut
        }
    }
}

/// Adds what is found in one more round, and says whether there was something.
fn round(found: &mut Vec<Span>, word: &[u8], productions: &[Production]) -> Result<bool, NoMemory> {
    let mut is_more = false;
    for p in productions {
        for from in 0..9 {
            for to in from..9 {
                if to <= word.len() as u64
                    && !symbol_derives(found, word, Symbol::Nt(p.left), from, to)
                    && right_derives(found, word, &p.right, from, to)
                {
                    found.push(Span {
                        nt: p.left.0,
                        from,
                        to,
                    })?;
                    is_more = true;
                }
            }
        }
    }
    Ok(is_more)
}

/// Whether the grammar derives the word, in up to 1,000 rounds.
pub fn derives(alloc: Global, grammar: &Grammar, word: &str) -> Result<bool, NoMemory> {
    let word = word.as_bytes();
    let mut found = Vec::new(alloc);
    for _round in 0..1000 {
        if !round(&mut found, word, grammar.productions.as_slice())? {
            break;
        }
    }
    let start: Nt = grammar.start;
    Ok(symbol_derives(&found, word, Symbol::Nt(start), 0, word.len() as u64))
}
