//! How long the ways to go over a page take.

use crate::reading::tokens_of;
use anyhow::Result;
use merged_reader::MergedReader;
use page_lexer::PageLexer;
use std::alloc::Global;
use std::rt::Clock;
use std::time::Instant;
use text_base::NoMemory;

/// So many bytes are read each way, at least: a short page again and again.
const BYTES: usize = 1_048_576;

/// A way to go over a page.
#[derive(Clone, Copy)]
enum Way {
    /// The bytes are only summed.
    Sum,
    /// A step of the reader at each byte.
    Steps,
    /// By a lexer that is made on the way.
    Lexer,
    /// By a lexer that has asked all that the page asks for.
    Full,
}

impl Way {
    fn name(self) -> &'static str {
        match self {
            Way::Sum => "a sum of the bytes",
            Way::Steps => "a step at each byte",
            Way::Lexer => "a lexer, which asks each pair once",
            Way::Full => "the lexer when all is asked",
        }
    }
}

#[inline(never)]
fn sum_of(page: &[u8]) -> u64 {
    let mut sum = 0_u64;
    for byte in page {
        sum = sum.wrapping_add(u64::from(*byte));
    }
    sum
}

// Goes over the page once. What it comes to is kept, so that nothing of it is left out.
fn turn(
    alloc: Global,
    way: Way,
    reader: MergedReader<'_>,
    full: &mut PageLexer<'_>,
    page: &[u8],
) -> Result<u64, NoMemory> {
    match way {
        Way::Sum => Ok(sum_of(page)),
        Way::Steps => Ok(tokens_of(alloc, reader, page)? as u64),
        Way::Lexer => {
            let mut lexer = PageLexer::new(alloc, reader.indexed)?;
            Ok(lexer.tokens(alloc, page)?.len() as u64)
        }
        Way::Full => Ok(full.tokens(alloc, page)?.len() as u64),
    }
}

// Picoseconds for each byte of so many turns over a page.
fn picoseconds(nanoseconds: u128, turns: usize, page: &[u8]) -> u64 {
    let bytes = (turns as u64).saturating_mul(page.len() as u64).max(1);
    let taken = u64::try_from(nanoseconds).unwrap_or(u64::MAX);
    taken.saturating_mul(1000) / bytes
}

// How long a byte takes in one way, in picoseconds, at the fastest of five rounds, and what the turns
// came to.
fn timed(
    rt: &(impl Clock + AllocGlobal),
    way: Way,
    reader: MergedReader<'_>,
    full: &mut PageLexer<'_>,
    page: &[u8],
) -> Result<(u64, u64)> {
    let turns = (BYTES / page.len().max(1)).saturating_add(1);
    let mut least = u64::MAX;
    let mut kept = 0_u64;
    for _ in 0..5 {
        let start = Instant::now(rt)?;
        for _ in 0..turns {
            kept = kept.rotate_left(1) ^ turn(rt.alloc(), way, reader, full, page)?;
        }
        let taken = start.elapsed(rt)?.as_nanos();
        least = least.min(picoseconds(taken, turns, page));
    }
    Ok((least, kept))
}

/// Prints how long a byte takes in each way, and how many times as long as only to sum the bytes.
pub fn measure(
    rt: &(impl Clock + AllocGlobal + Print),
    reader: MergedReader<'_>,
    page: &[u8],
) -> Result<()> {
    let mut full = PageLexer::new(rt.alloc(), reader.indexed)?;
    let _tokens = full.tokens(rt.alloc(), page)?;
    let (plain, _) = timed(rt, Way::Sum, reader, &mut full, page)?;
    for way in [Way::Sum, Way::Steps, Way::Lexer, Way::Full] {
        let (taken, kept) = timed(rt, way, reader, &mut full, page)?;
        let (name, ratio) = (way.name(), taken / plain.max(1));
        let (whole, thousandths) = (taken / 1000, taken % 1000);
        println!(rt; "  {name}: {whole}.{thousandths:03} ns, {ratio} times the sum ({kept})")?;
    }
    Ok(())
}
