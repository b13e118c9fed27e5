//! Measures `ssa` of ssa_form and `extract` of extraction, for scripts over 500 variables.
//! Without an argument it takes 100 statements of each kind and prints no figures; with a kind and
//! a number it prints seconds, beside a plain set, and how large the system is. It has no clause.
//! Used by: none; it stands at the top.
#![tactic(auto)]

ghost use Rattle.std.specs.Prelude.{◌<◌};

use anyhow::{Context, Result, ensure};
use extraction::extract;
use flow_code::FlowProgram;
use indexmap::IndexSet;
use io_edge::MemFiles;
use program_loader::load;
use program_lowering::lower;
use program_rules::Program;
use ssa_form::ssa;
use std::alloc::{AllocError, Global};
use std::env;
use std::rt::{Clock, Env};
use std::time::Instant;
use text_base::{Bytes, NoMemory};

/// How many variables the script has at most.
const VARIABLES: u64 = 500;

/// How many statements without an argument.
const FEW: u64 = 100;

/// The most statements, which are within the limits of a script.
const MOST: u64 = 20_000;

/// Which variables the statements use.
#[derive(Clone, Copy)]
enum Kind {
    /// Each one just behind an assignment to it, so that two matter at a point.
    Near,
    /// Any of them anywhere, each assigned in branches alone, so that all matter at each point.
    Far,
}

impl Kind {
    /// The word that asks for it.
    fn word(self) -> &'static str {
        match self {
            Kind::Near => "near",
            Kind::Far => "far",
        }
    }

    /// How many statements belong together, the last one in the branch of the one before it.
    fn together(self) -> u64
        ensures { 0 < result }
    {
        match self {
            Kind::Near => 3,
            Kind::Far => 2,
        }
    }

    // How many variables matter at each group of statements.
    fn matter(self) -> u64 {
        match self {
            Kind::Near => 2,
            Kind::Far => VARIABLES,
        }
    }

    // These statements, by the number of their group.
    fn group(self, alloc: Global, number: u64) -> Result<String, AllocError> {
        let test = number % VARIABLES;
        match self {
            Kind::Near => {
                let from = number.wrapping_add(VARIABLES - 1) % VARIABLES;
                format!(in alloc; "$x{test} = 'a'; if ($x{test}) {{ $x{test} = $x{from}; }} ")
            }
            Kind::Far => {
                let from = number.wrapping_mul(7) % VARIABLES;
                let to = number.wrapping_mul(3) % VARIABLES;
                format!(in alloc; "if ($x{test}) {{ $x{to} = $x{from}; }} ")
            }
        }
    }
}

// So many statements of a kind.
fn statements(alloc: Global, kind: Kind, count: u64) -> Result<String, AllocError> {
    let mut text = String::from_str(alloc, "<?php ")?;
    for number in 0..count / kind.together() {
        let group = kind.group(alloc, number)?;
        text.push_str(group.as_str())?;
    }
    text.push_str("echo $x0;")?;
    Ok(text)
}

fn source_of(alloc: Global, script: &str) -> Result<MemFiles, NoMemory> {
    let mut held = Vec::new(alloc);
    held.push((
        Bytes::from_slice(alloc, b"t.php")?,
        Bytes::from_slice(alloc, script.as_bytes())?,
    ))?;
    Ok(MemFiles::new(held, Vec::new(alloc)))
}

// The program of a script, if it is one.
fn program_of(alloc: Global, script: &str) -> Result<Option<Program>, NoMemory> {
    let mut source = source_of(alloc, script)?;
    Ok(load(alloc, &mut source, ".", "t.php", None).ok())
}

// The points of a script of so many statements.
fn points_of(alloc: Global, kind: Kind, count: u64) -> Result<FlowProgram> {
    let script = statements(alloc, kind, count)?;
    let program = program_of(alloc, script.as_str())?.context("a program")?;
    lower(alloc, &program).ok().context("its points")
}

/// What is measured of a script.
#[derive(Clone, Copy)]
struct Figures {
    /// The seconds that its versions take.
    versions: f64,
    /// The seconds that its extraction takes, which makes versions of its own.
    extraction: f64,
    /// The seconds of a set of a pair for each group of statements and each variable that matters there.
    set: f64,
    /// How large its system is.
    nonterminals: u64,
    productions: usize,
}

// The seconds that the versions of points take, which are then let go.
fn versions_of(rt: &(impl Clock + AllocGlobal), flow: &FlowProgram) -> Result<f64> {
    let start = Instant::now(rt)?;
    let versions = ssa(rt.alloc(), flow)?;
    let seconds = start.elapsed(rt)?.as_secs_f64();
    drop(versions);
    Ok(seconds)
}

// A set of a pair for each group and each variable that matters there, each of which is then looked
// for: how many are found.
fn found_in_set(alloc: Global, groups: u64, matter: u64) -> Result<usize, AllocError> {
    let mut set = IndexSet::new(alloc);
    for group in 0..groups {
        for variable in 0..matter {
            set.insert((group, variable))?;
        }
    }
    let mut found = 0_usize;
    for group in 0..groups {
        for variable in 0..matter {
            if set.contains(&(group, variable)) {
                found = found.wrapping_add(1);
            }
        }
    }
    Ok(found)
}

// The seconds that this takes.
fn set_of(rt: &(impl Clock + AllocGlobal), kind: Kind, count: u64) -> Result<f64> {
    let start = Instant::now(rt)?;
    let found = found_in_set(rt.alloc(), count / kind.together(), kind.matter())?;
    let seconds = start.elapsed(rt)?.as_secs_f64();
    ensure!(found > 0, "a set without its pairs");
    Ok(seconds)
}

// What is measured of points.
fn figures_of(rt: &(impl Clock + AllocGlobal), flow: &FlowProgram, set: f64) -> Result<Figures> {
    let versions = versions_of(rt, flow)?;
    let start = Instant::now(rt)?;
    let system = extract(rt.alloc(), flow)?;
    let extraction = start.elapsed(rt)?.as_secs_f64();
    Ok(Figures {
        versions,
        extraction,
        set,
        nonterminals: system.grammar.count,
        productions: system.grammar.productions.len(),
    })
}

// What is measured of a script of so many statements.
fn measured(rt: &(impl Clock + AllocGlobal), kind: Kind, count: u64) -> Result<Figures> {
    let set = set_of(rt, kind, count)?;
    let flow = points_of(rt.alloc(), kind, count)?;
    figures_of(rt, &flow, set)
}

// Measures a script of so many statements, and tells the figures where they are asked for.
fn show(
    rt: &(impl Print + Clock + AllocGlobal),
    kind: Kind,
    count: u64,
    is_asked: bool,
) -> Result<()> {
    let figures = measured(rt, kind, count)?;
    let word = kind.word();
    if !is_asked {
        println!(rt; "versions and extraction of {count} statements, {word}: done")?;
        return Ok(());
    }
    let Figures {
        versions,
        extraction,
        set,
        nonterminals,
        productions,
    } = figures;
    println!(rt;
        "{count} statements, {word}: versions {versions:.4} s, extraction {extraction:.4} s"
    )?;
    let (of_versions, of_extraction) = (versions / set, extraction / set);
    println!(rt;
        "  {of_versions:.1} and {of_extraction:.1} times a plain set, which takes {set:.4} s"
    )?;
    println!(rt; "  {nonterminals} nonterminals, {productions} productions")?;
    Ok(())
}

fn main(rt: HostRuntime) -> Result<()> {
    let mut words = env::args(&rt)?.skip(1);
    let (word, number) = (words.next(), words.next());
    let (word, number) = (word.as_deref(), number.as_deref());
    let count = match number {
        None => FEW,
        Some(number) => number.parse::<u64>().context("a number")?.min(MOST),
    };
    for kind in [Kind::Near, Kind::Far] {
        if word.is_none() || word == Some(kind.word()) {
            show(&rt, kind, count, number.is_some())?;
        }
    }
    Ok(())
}
