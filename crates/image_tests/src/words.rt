//! Whether a grammar derives a short word, by trying all cuts.

use cfg_grammar::{Grammar, Production, Right, Symbol};
use indexmap::IndexSet;
use std::alloc::Global;
use text_base::{NoMemory, Nt};

/// A nonterminal that derives the bytes from one place up to another, by its number and these
/// places.
type Spans = IndexSet<(u64, usize, usize)>;

/// Whether a symbol derives the bytes from one place up to another, by what has been found.
fn symbol_derives(found: &Spans, word: &[u8], symbol: Symbol, from: usize, to: usize) -> bool {
    match symbol {
        Symbol::Nt(a) => found.contains(&(a.0, from, to)),
        Symbol::Range(range) => {
            from < to
                && to - from == 1
                && match word.get(from) {
                    Some(byte) => range.lo <= *byte && *byte <= range.hi,
                    None => false,
                }
        }
        Symbol::Token(_) => false,
    }
}

/// Whether two symbols derive them one after the other, by some cut between them.
fn both_derive(found: &Spans, word: &[u8], both: (Symbol, Symbol), from: usize, to: usize) -> bool {
    for cut in from..to {
        if symbol_derives(found, word, both.0, from, cut)
            && symbol_derives(found, word, both.1, cut, to)
        {
            return true;
        }
    }
    symbol_derives(found, word, both.0, from, to) && symbol_derives(found, word, both.1, to, to)
}

fn right_derives(found: &Spans, word: &[u8], right: &Right, from: usize, to: usize) -> bool {
    match right {
        Right::Empty => from == to,
        Right::One(symbol) => symbol_derives(found, word, *symbol, from, to),
        Right::Two(first, second) => both_derive(found, word, (*first, *second), from, to),
    }
}

/// Adds what a production derives of the bytes from a place on.
fn add_from(
    found: &mut Spans,
    word: &[u8],
    production: &Production,
    from: usize,
) -> Result<(), NoMemory> {
    for (before, _) in word.iter().enumerate() {
        if from <= before && right_derives(found, word, &production.right, from, before) {
            found.insert((production.left.0, from, before))?;
        }
    }
    if right_derives(found, word, &production.right, from, word.len()) {
        found.insert((production.left.0, from, word.len()))?;
    }
    Ok(())
}

/// Adds what is found in one more round.
fn round(found: &mut Spans, word: &[u8], productions: &[Production]) -> Result<(), NoMemory> {
    for production in productions {
        for (from, _) in word.iter().enumerate() {
            add_from(found, word, production, from)?;
        }
        add_from(found, word, production, word.len())?;
    }
    Ok(())
}

/// Whether the grammar derives the word, in up to 1,000 rounds.
pub fn derives(alloc: Global, grammar: &Grammar, word: &str) -> Result<bool, NoMemory> {
    let word = word.as_bytes();
    let mut found = IndexSet::new(alloc);
    for _round in 0..1000 {
        let known = found.len();
        round(&mut found, word, grammar.productions.as_slice())?;
        if found.len() == known {
            break;
        }
    }
    let start: Nt = grammar.start;
    Ok(symbol_derives(&found, word, Symbol::Nt(start), 0, word.len()))
}
