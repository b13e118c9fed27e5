// Grammars that are written as text: a line for each production, as `n3 = n4 61-7a`, where `n0` is
// the start.
use anyhow::{Context, Result};
use std::alloc::Global;

/// A symbol of a right side: a nonterminal by its number, or the first and the last byte of a range.
#[derive(Clone, Copy)]
pub enum Sign {
    Inner(u64),
    Range(u8, u8),
}

/// A production.
pub struct Production {
    pub left: u64,
    pub right: Vec<Sign>,
}

impl Drop for Production {
    fn drop(self) {
        let Production { left: _, right: _ } = self;
    }
}

/// The nonterminal of a grammar's sentences.
pub const START: u64 = 0;

/// How many steps a walk through a grammar takes at most.
pub const STEPS: u32 = 100_000;

fn nonterminal(text: &str) -> Result<u64> {
    let digits = text.strip_prefix("n").context("a nonterminal")?;
    digits.parse::<u64>().context("the number of a nonterminal")
}

fn sign_of(text: &str) -> Result<Sign> {
    match text.split_once("-") {
        None => Ok(Sign::Inner(nonterminal(text)?)),
        Some((first, last)) => Ok(Sign::Range(
            u8::from_str_radix(first, 16).context("a first byte")?,
            u8::from_str_radix(last, 16).context("a last byte")?,
        )),
    }
}

fn production_of(alloc: Global, line: &str) -> Result<Production> {
    let (left, signs) = line.split_once(" =").context("a production")?;
    let mut right = Vec::new(alloc);
    for sign in signs.split(' ') {
        if !sign.is_empty() {
            right.push(sign_of(sign)?)?;
        }
    }
    Ok(Production {
        left: nonterminal(left)?,
        right,
    })
}

/// The productions of a grammar that is written so.
pub fn productions_of(alloc: Global, text: &[u8]) -> Result<Vec<Production>> {
    let text = str::from_utf8(text).context("a grammar as text")?;
    let mut productions = Vec::new(alloc);
    for line in text.lines() {
        productions.push(production_of(alloc, line)?)?;
    }
    Ok(productions)
}

// The right side of a nonterminal that has one production.
fn only_right(productions: &[Production], left: u64) -> Option<&[Sign]> {
    let mut found = None;
    for production in productions {
        if production.left == left {
            if found.is_some() {
                return None;
            }
            found = Some(production.right.as_slice());
        }
    }
    found
}

/// Whether each nonterminal of the grammar has one production and each range one byte, and this is
/// its sentence.
pub fn has_sentence(alloc: Global, grammar: &[u8], wanted: &[u8]) -> Result<bool> {
    let productions = productions_of(alloc, grammar)?;
    let mut sentence = Vec::new(alloc);
    let mut open = Vec::new(alloc);
    open.push(Sign::Inner(START))?;
    for _ in 0..STEPS {
        match open.pop() {
            None => return Ok(sentence.as_slice() == wanted),
            Some(Sign::Range(first, last)) => {
                if first != last {
                    break;
                }
                sentence.push(first)?;
            }
            Some(Sign::Inner(inner)) => {
                let Some(right) = only_right(productions.as_slice(), inner) else {
                    break;
                };
                for sign in right.iter().rev() {
                    open.push(*sign)?;
                }
            }
        }
    }
    Ok(false)
}
