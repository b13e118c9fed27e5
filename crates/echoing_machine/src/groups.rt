//! Neighbouring bytes that do the same.

ghost use Rattle.std.specs.Prelude.{◌≡◌, ◌+◌, ◌++◌, ◌∷◌, [], ℕ, List, OnOk, IsTrue};
ghost use Rattle.echoing_machine.specs.Groups.{AddsRun};

use fst_core::{Move, Out};
use std::hash::Hash;
use text_base::{ByteRange, Exact, NoMemory};

/// Whether the move ends directly before the byte, and does what the byte does.
fn goes_on<S: Exact + Hash + Drop>(last: &Move<S>, byte: u8, to: &S, out: &[Out]) -> bool
    ensures behind { IsTrue result → last.now.range.hi + 1 ≡ byte }
    ensures to { IsTrue result → last.now.to ≡ to.now }
    ensures out { IsTrue result → last.now.out.items ≡ out.now }
{
    u16::from(last.range.hi) + 1 == u16::from(byte)
        && last.to == *to
        && same_outs(last.out.as_slice(), out)
}

/// Whether the outputs are the same, one by one.
fn same_outs(a: &[Out], b: &[Out]) -> bool
    ensures { IsTrue result → a.now ≡ b.now }
{
    a == b
}

/// Adds a run of bytes: to the last move where that goes on so, else as a move of its own.
pub fn add_run<S: Exact + Hash + Drop>(
    moves: &mut Vec<Move<S>>,
    run: ByteRange,
    to: S,
    out: Vec<Out>,
) -> Result<(), NoMemory>
    ensures { OnOk result (AddsRun moves.old.items moves.new.items run to out.items) }
{
    let Some(last) = moves.pop() else {
        return add_alone(moves, run, to, out);
    };
    if goes_on(&last, run.lo, &to, out.as_slice()) {
        return add_longer(moves, last, run);
    }
    moves.push(last)?;
    add_alone(moves, run, to, out)
}

/// Adds a move by the run alone.
fn add_alone<S: Exact + Hash + Drop>(
    moves: &mut Vec<Move<S>>,
    run: ByteRange,
    to: S,
    out: Vec<Out>,
) -> Result<(), NoMemory>
    ensures { OnOk result (AddsRun moves.old.items moves.new.items run to out.items) }
{
    moves.push(Move {
        range: run,
        out,
        to,
    })?;
    Ok(())
}

/// Adds the move with the bytes of the run behind its own.
fn add_longer<S: Exact + Hash + Drop>(
    moves: &mut Vec<Move<S>>,
    last: Move<S>,
    run: ByteRange,
) -> Result<(), NoMemory>
    requires { last.range.hi + 1 ≡ run.lo }
    ensures { OnOk result
        (AddsRun (moves.old.items ++ last ∷ []) moves.new.items run last.to last.out.items) }
{
    let Move { range, out, to } = last;
    moves.push(Move {
        range: ByteRange {
            lo: range.lo,
            hi: run.hi,
        },
        out,
        to,
    })?;
    Ok(())
}
