//! Measures how few states of the reader of pages a page meets, and how few pairs of a state and a
//! byte, over pages of three sizes by two document types.
//! With the word `figures` also how long a step of merged_reader and of page_lexer takes. No
//! clause.
//! Used by: none; it stands at the top.
#![tactic(auto)]

mod figures;
mod pages;
mod reading;

use crate::figures::measure;
use crate::pages::{MINI, Parts, STRICT, page_of};
use crate::reading::pairs_of;
use anyhow::{Context, Result};
use document_types::strict;
use dtd_index::IndexedDtd;
use dtd_model::{Dtd, mini};
use merged_reader::MergedReader;
use page_lexer::PageLexer;
use std::env;
use std::rt::{Clock, Env};

/// How many bytes the pages have at most.
const SIZES: [usize; 3] = [512, 25_000, 1_048_576];

fn report(
    rt: &(impl Clock + AllocGlobal + Print),
    name: &str,
    reader: MergedReader<'_>,
    page: &[u8],
    timed: bool,
) -> Result<()> {
    let mut lexer = PageLexer::new(rt.alloc(), reader.indexed)?;
    let (bytes, tokens) = (page.len(), lexer.tokens(rt.alloc(), page)?.len());
    let (states, pairs) = (lexer.numbered.states.len(), pairs_of(&lexer));
    println!(rt; "{name}: {bytes} bytes, {tokens} tokens, {states} states, {pairs} pairs")?;
    if timed {
        measure(rt, reader, page)?;
    }
    Ok(())
}

// Reports on the pages of a definition.
fn report_all(
    rt: &(impl Clock + AllocGlobal + Print),
    name: &str,
    dtd: &Dtd,
    parts: &Parts,
    timed: bool,
) -> Result<()> {
    let indexed = IndexedDtd::new(rt.alloc(), dtd)?;
    let reader = MergedReader { indexed: &indexed };
    for most in SIZES {
        let page = page_of(rt.alloc(), parts, most)?;
        report(rt, name, reader, page.as_slice(), timed)?;
    }
    Ok(())
}

fn main(rt: HostRuntime) -> Result<()> {
    let word = env::args(&rt)?.nth(1);
    let timed = word.as_deref() == Some("figures");
    let large = strict(rt.alloc()).ok().context("the built-in definition")?;
    report_all(&rt, "strict", &large, &STRICT, timed)?;
    let small = mini(rt.alloc())?;
    report_all(&rt, "mini", &small, &MINI, timed)
}
