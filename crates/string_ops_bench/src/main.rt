//! Measures the machines of string_ops, and the images of grammars under them (grammar_image).
//! Without an argument it prints how many states, moves and items there are; with `machines` also
//! times, and with `chain`, `choices` or `texts` items and times of larger images. No clause.
//! Used by: none; it stands at the top.
#![tactic(auto)]

ghost use Rattle.std.specs.Prelude.{◌≢◌};
ghost use Rattle.op_system.specs.declared.op.Op.TheVariants.{Any};

mod images;
mod operations;
mod works;

use crate::images::{measure, show};
use crate::operations::{Operation, search};
use crate::works::Work;
use anyhow::Result;
use fst_core::{IndexedTable, Out, Table};
use op_system::Op;
use std::alloc::{AllocError, Global};
use std::env;
use std::rt::{Clock, Env};
use std::time::Instant;
use string_ops::machine_of;

/// The outputs of a table, one after the other.
fn copied(alloc: Global, table: &Table) -> Result<Vec<Vec<Out>>, AllocError> {
    let mut copies = Vec::new(alloc);
    for step in &table.moves {
        let out = Vec::from_slice(alloc, step.out.as_slice())?;
        copies.push(out)?;
    }
    Ok(copies)
}

/// Prints the size of the machine of an operation, and how long it takes to build.
fn figures(rt: &(impl Clock + AllocGlobal + Print), name: &str, op: &Op, timed: bool) -> Result<()>
    requires { op.now ≢ Any }
{
    let alloc = rt.alloc();
    let start = Instant::now(rt)?;
    let table = machine_of(alloc, op)?;
    let built = start.elapsed(rt)?.as_secs_f64();
    let start = Instant::now(rt)?;
    let copies = copied(alloc, &table)?;
    let copied = start.elapsed(rt)?.as_secs_f64();
    println!(rt; "{name}: {} states, {} moves", table.states, copies.len())?;
    if timed {
        let times = built / copied;
        println!(rt;
            "{name}: built in {built:.4} seconds, {times:.1} times a copy of what is put out"
        )?;
    }
    Ok(())
}

/// Prints how many items the images of small grammars under an operation have; or, where a word names
/// a kind of grammar, how many those of larger ones have and how long they take.
fn measure_images(
    rt: &(impl Clock + AllocGlobal + Print),
    operation: Operation,
    word: Option<&str>,
) -> Result<()> {
    let op = operation.op(rt.alloc())?;
    let table = machine_of(rt.alloc(), &op)?;
    let machine = IndexedTable::new(rt.alloc(), table)?;
    match word {
        None => {
            show(rt, &machine, operation, Work::Chain)?;
            show(rt, &machine, operation, Work::Choices)
        }
        Some(word) => {
            for work in [Work::Chain, Work::Choices, Work::Texts] {
                if word == work.word() {
                    measure(rt, &machine, operation, work)?;
                }
            }
            Ok(())
        }
    }
}

/// Prints how large the machines of a search and of two cuts are.
fn measure_machines(rt: &(impl Clock + AllocGlobal + Print), timed: bool) -> Result<()> {
    let thousand = search(rt.alloc(), 999)?;
    figures(rt, "search of 1000 bytes", &thousand, timed)?;
    let cut = Op::Cut {
        start: 0,
        len: Some(1024),
    };
    figures(rt, "cut of 1024 bytes", &cut, timed)?;
    let back = Op::Cut {
        start: -1024,
        len: None,
    };
    figures(rt, "cut of the last 1024 bytes", &back, timed)
}

fn main(rt: HostRuntime) -> Result<()> {
    let mut words = env::args(&rt)?.skip(1);
    let word = words.next();
    let operation = words.next();
    let (word, named) = (word.as_deref(), operation.as_deref());
    if word.is_none() || word == Some("machines") {
        measure_machines(&rt, word.is_some())?;
    }
    for operation in [
        Operation::Escapes,
        Operation::Search,
        Operation::Cut,
        Operation::Short,
    ] {
        if named.is_none() || named == Some(operation.word()) {
            measure_images(&rt, operation, word)?;
        }
    }
    Ok(())
}
