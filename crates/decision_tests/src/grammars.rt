//! Grammars of page tokens, written as letters.

use cfg_grammar::{Grammar, Production, Right, Symbol};
use std::alloc::Global;
use summary_decision::Verdict;
use text_base::{Elem, NoMemory, Nt, PageToken};

/// A digit is a nonterminal, as the signs behind `9` are; `h b p` start `html`, `body` and `p`, `H
/// B P` end them, `t` is text.
pub fn symbol(letter: u8) -> Symbol {
    match letter {
        b'h' => Symbol::Token(PageToken::Start(Elem(0))),
        b'b' => Symbol::Token(PageToken::Start(Elem(1))),
        b'p' => Symbol::Token(PageToken::Start(Elem(2))),
        b'H' => Symbol::Token(PageToken::End(Elem(0))),
        b'B' => Symbol::Token(PageToken::End(Elem(1))),
        b'P' => Symbol::Token(PageToken::End(Elem(2))),
        b't' => Symbol::Token(PageToken::Text),
        digit => Symbol::Nt(Nt(u64::from(digit.saturating_sub(b'0')))),
    }
}

/// The letter at a place; `.` behind the last one.
pub fn letter(text: &[u8], place: usize) -> u8 {
    match text.get(place) {
        Some(letter) => *letter,
        None => b'.',
    }
}

/// Three letters: the left side, and up to two symbols, with `.` for none.
pub fn production(text: &[u8], place: usize) -> Production {
    let left = Nt(u64::from(letter(text, place).saturating_sub(b'0')));
    let first = letter(text, place.wrapping_add(1));
    let second = letter(text, place.wrapping_add(2));
    let right = if first == b'.' {
        Right::Empty
    } else if second == b'.' {
        Right::One(symbol(first))
    } else {
        Right::Two(symbol(first), symbol(second))
    };
    Production { left, right }
}

/// The grammar of productions of three letters each, from 0.
pub fn grammar(alloc: Global, text: &[u8]) -> Result<Option<Grammar>, NoMemory> {
    let mut productions = Vec::new(alloc);
    for number in 0..text.len() / 3 {
        productions.push(production(text, number.wrapping_mul(3)))?;
    }
    Ok(Grammar::new(Nt(0), 17, productions))
}

/// The answer by its letter, with its count and height.
pub fn outcome(verdict: Verdict) -> (u8, u64, u64) {
    match verdict {
        Verdict::Yes => (b'y', 0, 0),
        Verdict::No(_) => (b'n', 0, 0),
        Verdict::Pairs { count, height } => (b'p', count, height),
        Verdict::Tags { count, height } => (b't', count, height),
    }
}
