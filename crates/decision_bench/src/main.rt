//! Measures `decide` of summary_decision over grammars of page tokens of four kinds.
//! Without a word it decides small ones and prints the answers; with a number it prints the times
//! for the sizes that the number stands for, and how many times that twice as many take. No clause.
//! Used by: none; it stands at the top.
#![tactic(auto)]

mod grammars;

use crate::grammars::{Work, grammar_of};
use anyhow::{Context, Result};
use content_automata::build;
use dtd_model::{Dtd, mini};
use dyck_balance::Nesting;
use segment_summary::Segments;
use std::alloc::Global;
use std::env;
use std::rt::{Clock, Env};
use std::time::Instant;
use summary_decision::{Verdict, decide};

/// The number that is meant without a word.
const FEW: u32 = 10;

/// So many sums of a nonterminal are allowed.
const PAIRS: u64 = 1_000_000;

fn named(verdict: &Verdict) -> &'static str {
    match verdict {
        Verdict::Yes => "yes",
        Verdict::No(_) => "no",
        Verdict::Pairs { .. } => "too many sums",
        Verdict::Tags { .. } => "too many tags",
    }
}

// Decides one grammar, by nesting, and that of a page by the document type `mini`.
fn answer(alloc: Global, dtd: &Dtd, work: Work, size: u64) -> Result<&'static str> {
    let grammar = grammar_of(alloc, work, size)?.context("a nonterminal is too large")?;
    let verdict = match work {
        Work::Paragraphs => {
            let segments = Segments::new(alloc, build(alloc, dtd)?, dtd)?;
            decide(alloc, &segments, &grammar, PAIRS)?
        }
        Work::Functions | Work::Tokens | Work::Sums => {
            decide(alloc, &Nesting::new(), &grammar, PAIRS)?
        }
    };
    Ok(named(&verdict))
}

fn asked(rt: &(impl Env + AllocGlobal)) -> Result<Option<u32>> {
    match env::args(rt)?.nth(1) {
        None => Ok(None),
        Some(word) => {
            let count = word.as_str().parse::<u32>().context("a number")?;
            Ok(Some(count))
        }
    }
}

// The time of one decision in seconds.
fn timed(rt: &(impl Clock + AllocGlobal), dtd: &Dtd, work: Work, size: u64) -> Result<f64> {
    let start = Instant::now(rt)?;
    let _answer = answer(rt.alloc(), dtd, work, size)?;
    Ok(start.elapsed(rt)?.as_secs_f64())
}

fn measure(
    rt: &(impl Print + Clock + AllocGlobal),
    dtd: &Dtd,
    work: Work,
    asked: Option<u32>,
) -> Result<()> {
    let size = work.size(asked.unwrap_or(FEW));
    let name = work.name();
    match asked {
        None => {
            let answer = answer(rt.alloc(), dtd, work, size)?;
            println!(rt; "{size} {name}: {answer}")?;
        }
        Some(_) => {
            let once = timed(rt, dtd, work, size)?;
            let twice = timed(rt, dtd, work, size.wrapping_mul(2))?;
            let ratio = twice / once;
            println!(rt; "{size} {name}: {once:.4} s, twice as many {ratio:.1} times as long")?;
        }
    }
    Ok(())
}

fn main(rt: HostRuntime) -> Result<()> {
    let asked = asked(&rt)?;
    let dtd = mini(rt.alloc())?;
    for work in [Work::Functions, Work::Tokens, Work::Paragraphs, Work::Sums] {
        measure(&rt, &dtd, work, asked)?;
    }
    Ok(())
}
