//! Measures runs of scripts (`run` of script_runs), from the lines of data/scripts.txt.
//! Without an argument it makes a few turns of each and prints no times; with a number so many
//! times as many and twice that, with the seconds and how they grow. It has no clause.
//! Used by: none; it stands at the top.
#![tactic(auto)]

use anyhow::{Context, Result};
use io_edge::{DiskFiles, FileKind, Files, MemFiles};
use program_loader::load;
use program_rules::Program;
use request_reading::Request;
use script_runs::{End, Ended, run};
use std::alloc::{AllocError, Global};
use std::rt::{Clock, Env};
use std::time::Instant;
use std::{env, str};
use text_base::{Bytes, NoMemory};

/// The greatest number that is taken.
const MOST: u32 = 100_000;

/// How many units a run may take.
const UNITS: u64 = 1_000_000_000_000;

fn script_of(alloc: Global, text: &str, count: u64) -> Result<String, AllocError> {
    let digits = format!(in alloc; "{count}")?;
    text.replace(alloc, "N", digits.as_str())
}

fn source_of(alloc: Global, script: &str) -> Result<MemFiles, NoMemory> {
    let mut held = Vec::new(alloc);
    held.push((
        Bytes::from_slice(alloc, b"t.php")?,
        Bytes::from_slice(alloc, script.as_bytes())?,
    ))?;
    Ok(MemFiles::new(held, Vec::new(alloc)))
}

fn program_of(alloc: Global, script: &str) -> Result<Option<Program>, NoMemory> {
    let mut source = source_of(alloc, script)?;
    Ok(load(alloc, &mut source, ".", "t.php", None).ok())
}

fn run_of(alloc: Global, program: &Program) -> Result<Ended, NoMemory> {
    let request = Request::empty(alloc)?;
    run(alloc, program, &request, UNITS)
}

// Whether a run came to its end, with a `d` as the last that it printed.
fn is_done(ended: &Ended) -> bool {
    ended.end == End::Ended && ended.printed.as_slice().last() == Some(&b'd')
}

// The seconds of a run, if it comes to its end.
fn timed(rt: &(impl Clock + AllocGlobal), program: &Program) -> Result<Option<f64>> {
    let start = Instant::now(rt)?;
    let ended = run_of(rt.alloc(), program)?;
    let time = start.elapsed(rt)?.as_secs_f64();
    if is_done(&ended) {
        Ok(Some(time))
    } else {
        Ok(None)
    }
}

// The seconds of a run of a script, which has to come to its end.
fn seconds(rt: &(impl Clock + AllocGlobal), text: &str, count: u64) -> Result<f64> {
    let script = script_of(rt.alloc(), text, count)?;
    let time = match program_of(rt.alloc(), script.as_str())? {
        None => None,
        Some(program) => timed(rt, &program)?,
    };
    time.context("a run that comes to its end")
}

fn asked(rt: &(impl Env + AllocGlobal)) -> Result<Option<u32>> {
    match env::args(rt)?.nth(1) {
        None => Ok(None),
        Some(word) => {
            let times = word.as_str().parse::<u32>().context("a number")?;
            Ok(Some(times.min(MOST)))
        }
    }
}

// Measures a script in which `N` stands for the turns, of which there are so many at the number 1.
fn measure(
    rt: &(impl Print + Clock + AllocGlobal),
    name: &str,
    turns: u32,
    text: &str,
    asked: Option<u32>,
) -> Result<()> {
    match asked {
        None => {
            seconds(rt, text, u64::from(turns))?;
            println!(rt; "{turns} {name}: done")?;
        }
        Some(times) => {
            let many = u64::from(turns) * u64::from(times);
            let once = seconds(rt, text, many)?;
            let twice = seconds(rt, text, many.saturating_mul(2))?;
            let ratio = twice / once;
            println!(rt; "{many} {name}: {once:.4} s, twice as many {ratio:.2} times that")?;
        }
    }
    Ok(())
}

// Measures the script of a line.
fn measure_line(
    rt: &(impl Print + Clock + AllocGlobal),
    line: &str,
    asked: Option<u32>,
) -> Result<()> {
    let (head, script) = line.split_once(": ").context("a line with a script")?;
    let (turns, name) = head.split_once(" ").context("a line with turns")?;
    let turns = turns.parse::<u32>().context("a number of turns")?;
    measure(rt, name, turns, script, asked)
}

fn main(rt: HostRuntime) -> Result<()> {
    let asked = asked(&rt)?;
    let mut files = DiskFiles::new(&rt, rt.stdin());
    let held = files
        .read(rt.alloc(), "scripts.txt", FileKind::Any)
        .context("the file of scripts")?;
    let text = str::from_utf8(held.as_slice()).context("a text")?;
    for line in text.lines() {
        measure_line(&rt, line, asked)?;
    }
    Ok(())
}
