//! Rows of calls of `several_files::answer` on files and outputs in memory, each with the status and
//! the outputs that were worked out for it by hand, from PHP 8.2 or from XML 1.0.
//! It tests the whole program: a row that ends otherwise is printed, and last how many rows passed
//! and failed. README.md tells how a row is written. It has no clause.
//! Used by: none; it stands at the top.
#![tactic(auto)]

mod calls;
mod derived;
mod grammars;
mod rows;
mod table;
mod texts;
mod tries;
mod wishes;

use crate::table::Table;
use anyhow::{Context, Result};
use io_edge::{DiskFiles, FileKind, Files};
use std::io::Read;
use std::{env, rt};

// Adds a line of its own to the text of the line before it.
fn add_line(open: &mut String, line: &str) -> Result<()> {
    if !open.as_str().ends_with("\\n") {
        open.push(' ')?;
    }
    open.push_str(line.strip_prefix(" ").unwrap_or(line))?;
    open.push_str("\\n")?;
    Ok(())
}

// Takes the lines of a file with rows, and prints how many came out.
fn take_file(
    rt: &(impl Print + rt::Files + AllocGlobal),
    input: impl Read + Drop,
    table: &mut Table,
    name: &str,
) -> Result<()> {
    let alloc = rt.alloc();
    let bytes = DiskFiles::new(rt, input)
        .read(alloc, name, FileKind::Any)
        .context("a file of rows")?;
    let text = str::from_utf8(bytes.as_slice()).context("a file in UTF-8")?;
    let (passed, failed) = (table.passed, table.failed);
    let mut open = String::new(alloc);
    let mut place = 0u64;
    for line in text.lines() {
        if let Some(more) = line.strip_prefix("|") {
            add_line(&mut open, more)?;
        } else {
            table.take(rt, (name, place), open.as_str())?;
            open = String::from_str(alloc, line)?;
        }
        place = place.saturating_add(1);
    }
    table.take(rt, (name, place), open.as_str())?;
    println!(rt;
        "{name}: {} passed, {} failed",
        table.passed.saturating_sub(passed),
        table.failed.saturating_sub(failed)
    )?;
    Ok(())
}

fn main(rt: HostRuntime) -> Result<()> {
    let mut table = Table::new(rt.alloc())?;
    for name in env::args(&rt)?.skip(1) {
        take_file(&rt, rt.stdin(), &mut table, name.as_str())?;
    }
    println!(rt; "{} rows passed, {} failed", table.passed, table.failed)?;
    Ok(())
}
