//! The grammars that are put through the machine of an operation.

use anyhow::{Context, Result};
use cfg_grammar::{Grammar, Production, Right, Symbol};
use given_texts::given_texts;
use std::alloc::Global;
use text_base::{ByteRange, NoMemory, Nt};

/// The bytes of a chain, again and again.
const TEXT: &[u8; 16] = b"<p>a & b - c</p>";

/// What is put through.
#[derive(Clone, Copy)]
pub enum Work {
    /// A chain of bytes, a production each.
    Chain,
    /// Places of which each is a small letter, a digit or `<b`, four productions each.
    Choices,
    /// Places of which each is any text of XML's characters, a production each.
    Texts,
}

impl Work {
    /// What it is called where figures are printed.
    pub fn name(self) -> &'static str {
        match self {
            Work::Chain => "bytes in a chain",
            Work::Choices => "places of a choice",
            Work::Texts => "places of any text",
        }
    }

    /// The word that asks for its figures.
    pub fn word(self) -> &'static str {
        match self {
            Work::Chain => "chain",
            Work::Choices => "choices",
            Work::Texts => "texts",
        }
    }
}

fn nt(number: u64) -> Symbol {
    Symbol::Nt(Nt(number))
}

fn range(lo: u8, hi: u8) -> Result<Symbol> {
    let range = ByteRange::new(lo, hi).context("a range")?;
    Ok(Symbol::Range(range))
}

fn put(productions: &mut Vec<Production>, left: u64, right: Right) -> Result<(), NoMemory> {
    productions.push(Production {
        left: Nt(left),
        right,
    })?;
    Ok(())
}

fn chain(alloc: Global, size: u64) -> Result<Vec<Production>> {
    let mut productions = Vec::new(alloc);
    for place in 0..size {
        let byte = TEXT[(place % 16) as usize];
        let right = Right::Two(range(byte, byte)?, nt(place.wrapping_add(1)));
        put(&mut productions, place, right)?;
    }
    put(&mut productions, size, Right::Empty)?;
    Ok(productions)
}

fn choices(alloc: Global, size: u64) -> Result<Vec<Production>> {
    let mut productions = Vec::new(alloc);
    for place in 0..size {
        let left = place.wrapping_mul(2);
        let (inner, next) = (left.wrapping_add(1), left.wrapping_add(2));
        put(&mut productions, left, Right::Two(nt(inner), nt(next)))?;
        put(&mut productions, inner, Right::One(range(b'a', b'z')?))?;
        put(&mut productions, inner, Right::One(range(b'0', b'9')?))?;
        let tag = Right::Two(range(b'<', b'<')?, range(b'b', b'b')?);
        put(&mut productions, inner, tag)?;
    }
    put(&mut productions, size.wrapping_mul(2), Right::Empty)?;
    Ok(productions)
}

// The nonterminals of all texts come first, then the places; the first place is given back.
fn texts(alloc: Global, size: u64) -> Result<(u64, Vec<Production>)> {
    let given = given_texts(alloc)?.grammar;
    let first = given.count;
    let start = given.start.0;
    let mut productions = given.productions;
    for place in 0..size {
        let left = first.wrapping_add(place);
        let right = Right::Two(nt(start), nt(left.wrapping_add(1)));
        put(&mut productions, left, right)?;
    }
    put(&mut productions, first.wrapping_add(size), Right::Empty)?;
    Ok((first, productions))
}

/// The grammar of so many bytes or places.
pub fn grammar_of(alloc: Global, work: Work, size: u64) -> Result<Grammar> {
    let (start, productions) = match work {
        Work::Chain => (0, chain(alloc, size)?),
        Work::Choices => (0, choices(alloc, size)?),
        Work::Texts => texts(alloc, size)?,
    };
    let count = size.wrapping_mul(2).wrapping_add(start).wrapping_add(1);
    Grammar::new(Nt(start), count, productions).context("a nonterminal is too large")
}
