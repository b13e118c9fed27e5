//! The grammars that are decided.

use cfg_grammar::{Grammar, Production, Right, Symbol};
use std::alloc::Global;
use text_base::{Elem, NoMemory, Nt, PageToken};

/// What is decided.
#[derive(Clone, Copy)]
pub enum Work {
    /// Functions of which each writes a start tag, calls the next one, and writes the end tag.
    Functions,
    /// A chain of tokens, a production each.
    Tokens,
    /// A page with a row of paragraphs, a production each.
    Paragraphs,
    /// Sums of one nonterminal, which are all different.
    Sums,
}

impl Work {
    /// The size that a number stands for.
    pub fn size(self, number: u32) -> u64 {
        let number = u64::from(number);
        match self {
            Work::Functions => number,
            Work::Tokens => number.wrapping_mul(1000),
            Work::Paragraphs | Work::Sums => number.wrapping_mul(10),
        }
    }

    /// What the size counts.
    pub fn name(self) -> &'static str {
        match self {
            Work::Functions => "nested functions",
            Work::Tokens => "tokens in a chain",
            Work::Paragraphs => "paragraphs of a page",
            Work::Sums => "sums of one nonterminal",
        }
    }
}

fn nt(number: u64) -> Symbol {
    Symbol::Nt(Nt(number))
}

fn start(element: u16) -> Symbol {
    Symbol::Token(PageToken::Start(Elem(element)))
}

fn end(element: u16) -> Symbol {
    Symbol::Token(PageToken::End(Elem(element)))
}

fn put(productions: &mut Vec<Production>, left: u64, right: Right) -> Result<(), NoMemory> {
    productions.push(Production {
        left: Nt(left),
        right,
    })?;
    Ok(())
}

// From `first` on, each nonterminal is the symbol and the next one, and the last one nothing.
fn put_chain(
    productions: &mut Vec<Production>,
    first: u64,
    symbol: Symbol,
    count: u64,
) -> Result<(), NoMemory> {
    for place in 0..count {
        let left = first.wrapping_add(place);
        put(
            productions,
            left,
            Right::Two(symbol, nt(left.wrapping_add(1))),
        )?;
    }
    put(productions, first.wrapping_add(count), Right::Empty)
}

// The nonterminal becomes each of so many others.
fn put_choices(
    productions: &mut Vec<Production>,
    left: u64,
    first: u64,
    count: u64,
) -> Result<(), NoMemory> {
    for place in 0..count {
        put(productions, left, Right::One(nt(first.wrapping_add(place))))?;
    }
    Ok(())
}

fn functions(alloc: Global, count: u64) -> Result<Vec<Production>, NoMemory> {
    let mut productions = Vec::new(alloc);
    for place in 0..count {
        let left = place.wrapping_mul(2);
        let rest = left.wrapping_add(1);
        put(&mut productions, left, Right::Two(start(2), nt(rest)))?;
        put(
            &mut productions,
            rest,
            Right::Two(nt(rest.wrapping_add(1)), end(2)),
        )?;
    }
    put(&mut productions, count.wrapping_mul(2), Right::Empty)?;
    Ok(productions)
}

fn tokens(alloc: Global, count: u64) -> Result<Vec<Production>, NoMemory> {
    let mut productions = Vec::new(alloc);
    put_chain(&mut productions, 0, Symbol::Token(PageToken::Text), count)?;
    Ok(productions)
}

fn paragraphs(alloc: Global, count: u64) -> Result<Vec<Production>, NoMemory> {
    let mut productions = Vec::new(alloc);
    put(&mut productions, 0, Right::Two(start(0), nt(1)))?;
    put(&mut productions, 1, Right::Two(nt(2), end(0)))?;
    put(&mut productions, 2, Right::Two(start(1), nt(3)))?;
    put(&mut productions, 3, Right::Two(nt(6), end(1)))?;
    put(&mut productions, 4, Right::Two(start(2), nt(5)))?;
    put(
        &mut productions,
        5,
        Right::Two(Symbol::Token(PageToken::Text), end(2)),
    )?;
    put_chain(&mut productions, 6, nt(4), count)?;
    Ok(productions)
}

// Some of up to 99 end tags, and behind them some of as many start tags as make the count: `pair`
// has a sum for each two numbers of them. The start has its first sentence when all are found.
fn sums(alloc: Global, count: u64) -> Result<Vec<Production>, NoMemory> {
    let openers = if count < 100 { 1 } else { count / 100 };
    let (ends, starts, pair) = (1, 2, 3);
    let first_end = 4u64;
    let first_start = first_end.wrapping_add(100);
    let wait = first_start.wrapping_add(openers);
    let mut productions = Vec::new(alloc);
    put(&mut productions, 0, Right::Two(nt(pair), nt(wait)))?;
    put(&mut productions, pair, Right::Two(nt(ends), nt(starts)))?;
    put_choices(&mut productions, ends, first_end, 100)?;
    put_choices(&mut productions, starts, first_start, openers)?;
    put_chain(&mut productions, first_end, end(2), 99)?;
    put_chain(
        &mut productions,
        first_start,
        start(2),
        openers.wrapping_sub(1),
    )?;
    let turns = openers.wrapping_mul(2).wrapping_add(300);
    put_chain(
        &mut productions,
        wait,
        Symbol::Token(PageToken::Text),
        turns,
    )?;
    Ok(productions)
}

/// The grammar of this size.
pub fn grammar_of(alloc: Global, work: Work, size: u64) -> Result<Option<Grammar>, NoMemory> {
    let productions = match work {
        Work::Functions => functions(alloc, size)?,
        Work::Tokens => tokens(alloc, size)?,
        Work::Paragraphs => paragraphs(alloc, size)?,
        Work::Sums => sums(alloc, size)?,
    };
    let count = size.wrapping_mul(2).wrapping_add(1000);
    Ok(Grammar::new(Nt(0), count, productions))
}
