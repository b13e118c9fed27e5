//! How many items the image of a grammar has, and how long it takes.

use crate::operations::Operation;
use crate::works::{Work, grammar_of};
use anyhow::{Context, Result};
use cfg_grammar::Grammar;
use fst_core::IndexedTable;
use grammar_image::{ImageRefusal, image};
use std::alloc::Global;
use std::rt::Clock;
use std::time::Instant;
use text_base::NoMemory;

/// The most items of an image.
const MOST: u64 = 100_000_000;

/// The size of a grammar without times.
const FEW: u64 = 10;

// How many productions the image has, where it has no more items than the limit.
fn productions_within(
    alloc: Global,
    table: &IndexedTable,
    grammar: &Grammar,
    limit: u64,
) -> Result<Option<usize>> {
    match image(alloc, grammar, grammar.start, table, limit) {
        Ok(made) => Ok(Some(made.grammar.productions.len())),
        Err(ImageRefusal::Large { .. }) => Ok(None),
        Err(ImageRefusal::Memory) => Err(NoMemory)?,
    }
}

// How many items the image has: the least limit with which it is made.
fn items_of(alloc: Global, table: &IndexedTable, grammar: &Grammar) -> Result<u64> {
    let mut low = 0u64;
    let mut high = MOST;
    for _ in 0..64u32 {
        let middle = low.saturating_add(high.saturating_sub(low) / 2);
        if middle >= high {
            break;
        }
        match productions_within(alloc, table, grammar, middle)? {
            Some(_) => high = middle,
            None => low = middle.saturating_add(1),
        }
    }
    Ok(high)
}

/// Prints how many items the image of a small grammar has.
pub fn show(
    rt: &(impl AllocGlobal + Print),
    table: &IndexedTable,
    operation: Operation,
    work: Work,
) -> Result<()> {
    let (operation, name) = (operation.name(), work.name());
    let grammar = grammar_of(rt.alloc(), work, FEW)?;
    let items = items_of(rt.alloc(), table, &grammar)?;
    println!(rt; "{operation} of {FEW} {name}: {items} items")?;
    Ok(())
}

// How many items the image of so many times a size has where it grows evenly.
fn expected(alloc: Global, table: &IndexedTable, work: Work, size: u64, times: u64) -> Result<u64> {
    let one = items_of(alloc, table, &grammar_of(alloc, work, size)?)?;
    let twice = size.wrapping_mul(2);
    let two = items_of(alloc, table, &grammar_of(alloc, work, twice)?)?;
    let more = two
        .saturating_sub(one)
        .saturating_mul(times.saturating_sub(1));
    Ok(one.saturating_add(more))
}

// The seconds that the image of a grammar takes, and its productions, where it has exactly so many
// items.
fn timed(
    rt: &(impl Clock + AllocGlobal),
    table: &IndexedTable,
    grammar: &Grammar,
    items: u64,
) -> Result<(f64, usize)> {
    let start = Instant::now(rt)?;
    let made = productions_within(rt.alloc(), table, grammar, items)?;
    let taken = start.elapsed(rt)?.as_secs_f64();
    let count = made.context("no more items than expected")?;
    let fewer = productions_within(rt.alloc(), table, grammar, items.saturating_sub(1))?;
    let one_is_missed = if fewer.is_none() { Some(()) } else { None };
    one_is_missed.context("fewer items than expected")?;
    Ok((taken, count))
}

/// Prints how many items and productions the image of a large grammar has and how long it takes, and
/// the same of one twice as large.
pub fn measure(
    rt: &(impl Clock + AllocGlobal + Print),
    table: &IndexedTable,
    operation: Operation,
    work: Work,
) -> Result<()> {
    let (unit, times) = operation.size(work);
    let (operation, name) = (operation.name(), work.name());
    let mut before = None;
    for times in [times, times.wrapping_mul(2)] {
        let size = unit.wrapping_mul(times);
        let items = expected(rt.alloc(), table, work, unit, times)?;
        let grammar = grammar_of(rt.alloc(), work, size)?;
        let (taken, count) = timed(rt, table, &grammar, items)?;
        println!(rt;
            "{operation} of {size} {name}: {items} items, {count} productions in {taken:.3} s"
        )?;
        if let Some(before) = before {
            let ratio = taken / before;
            println!(rt; "  {ratio:.2} times the seconds of half of it")?;
        }
        before = Some(taken);
    }
    Ok(())
}
