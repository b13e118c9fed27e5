//! Whether productions derive a word of up to five bytes, by trying all cuts.

use cfg_grammar::{Production, Right, Symbol};
use std::alloc::Global;
use text_base::NoMemory;

/// For each nonterminal and two ends, whether it is found to derive what stands between them.
fn place(nonterminal: u64, from: u64, to: u64) -> usize {
    let ends = from.wrapping_mul(6).wrapping_add(to);
    nonterminal.wrapping_mul(36).wrapping_add(ends) as usize
}

fn symbol_derives(found: &[bool], word: &[u8], symbol: Symbol, from: u64, to: u64) -> bool {
    match symbol {
        Symbol::Nt(a) => match found.get(place(a.0, from, to)) {
            Some(is_found) => *is_found,
            None => false,
        },
        Symbol::Range(range) => {
            from.wrapping_add(1) == to
                && match word.get(from as usize) {
                    Some(byte) => range.lo <= *byte && *byte <= range.hi,
                    None => false,
                }
        }
        Symbol::Token(_) => false,
    }
}

fn right_derives(found: &[bool], word: &[u8], right: Right, from: u64, to: u64) -> bool {
    match right {
        Right::Empty => from == to,
        Right::One(symbol) => symbol_derives(found, word, symbol, from, to),
        Right::Two(first, second) => {
            let mut is_cut = false;
            for cut in 0..6 {
                if from <= cut
                    && cut <= to
                    && symbol_derives(found, word, first, from, cut)
                    && symbol_derives(found, word, second, cut, to)
                {
                    is_cut = true;
                }
            }
            is_cut
        }
    }
}

/// Adds what one production derives, and says whether there was something new.
fn add(found: &mut Vec<bool>, word: &[u8], production: Production) -> bool {
    let mut is_more = false;
    for ends in 0..36 {
        let from = ends / 6;
        let to = ends % 6;
        if from <= to
            && to <= word.len() as u64
            && right_derives(found.as_slice(), word, production.right, from, to)
        {
            if let Some(is_found) = found.get_mut(place(production.left.0, from, to)) {
                if !*is_found {
                    *is_found = true;
                    is_more = true;
                }
            }
        }
    }
    is_more
}

/// Whether the productions, over nonterminals below 100, lead from a nonterminal to the word, in up
/// to 100 rounds.
pub fn derives(
    alloc: Global,
    productions: &[Production],
    nonterminal: u64,
    word: &[u8],
) -> Result<bool, NoMemory> {
    let mut found = vec![in alloc; false; 3600]?;
    for _round in 0..100 {
        let mut is_more = false;
        for production in productions {
            if add(&mut found, word, *production) {
                is_more = true;
            }
        }
        if !is_more {
            break;
        }
    }
    let whole = found.get(place(nonterminal, 0, word.len() as u64));
    Ok(match whole {
        Some(is_found) => *is_found,
        None => false,
    })
}
