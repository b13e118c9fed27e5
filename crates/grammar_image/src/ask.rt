//! Asking the machine what it does in a state by the bytes of a range.

ghost use Rattle.std.specs.Prelude.{◌≡◌, ◌<◌, ◌≤◌, ℕ, List, Contains, OnOk, Some, slice_get, All};
ghost use Rattle.cfg_grammar.specs.declared.symbol.Symbol as symbols;
ghost use Rattle.fst_core.specs.Offers.{IsWithin};
ghost use Rattle.grammar_image.specs.Answers.{NotesOne, NotesAll, Asks};

use fst_core::{Machine, Move};
use grammar_chart::{Chart, Reading, read};
use indexmap::IndexSet;
use numbered_sets::number;
use std::alloc::Global;
use std::hash::Hash;
use text_base::{ByteRange, Exact, NoMemory};

/// Notes a move as a reading, with the state that it leads to numbered.
fn note_move<S: Exact + Hash + Drop>(
    states: &mut IndexSet<S>,
    chart: &mut Chart,
    range: ByteRange,
    from: u64,
    step: Move<S>,
) -> Result<(), NoMemory>
    requires entered { Contains chart.old.entries.keys
        (record { symbol = symbols.Symbol.Range range; state = from }) }
    requires within { IsWithin range step }
    ensures { OnOk result
        (NotesOne states.old.keys states.new.keys chart.old chart.new range from step) }
{
    let Move {
        range: part,
        out,
        to,
    } = step;
    let (number, _) = number(states, to)?;
    read(
        chart,
        Reading {
            asked: range,
            from,
            range: part,
            out,
            to: number as u64,
        },
    )?;
    Ok(())
}

/// Notes moves as readings.
fn note_moves<S: Exact + Hash + Drop>(
    states: &mut IndexSet<S>,
    chart: &mut Chart,
    range: ByteRange,
    from: u64,
    mut moves: Vec<Move<S>>,
) -> Result<(), NoMemory>
    requires entered { Contains chart.old.entries.keys
        (record { symbol = symbols.Symbol.Range range; state = from }) }
    requires within { All (IsWithin range) moves.items }
    ensures { OnOk result
        (NotesAll states.old.keys states.new.keys chart.old chart.new range from moves.items) }
{
    while let Some(step) = moves.pop() {
        note_move(states, chart, range, from, step)?;
    }
    Ok(())
}

/// Asks the machine what it does in a state by the bytes of a range, and notes what it answers.
pub fn ask<M: Machine>(
    alloc: Global,
    machine: &M,
    states: &mut IndexSet<M::State>,
    chart: &mut Chart,
    range: ByteRange,
    state: u64,
) -> Result<(), NoMemory>
    requires entered { Contains chart.old.entries.keys
        (record { symbol = symbols.Symbol.Range range; state = state }) }
    requires known { (s : M.State) × (slice_get states.old.keys state ≡ Some s) }
    requires given { All (M.gives machine.now) states.old.keys }
    ensures { OnOk result
        (Asks (M.steps machine.now) (M.gives machine.now) states.old.keys states.new.keys chart.old
        chart.new range state) }
{
    let Some(at) = states.get_index(state as usize) else {
        return Ok(());
    };
    let own = machine.copy(alloc, at)?;
    let moves = machine.moves(alloc, &own, range)?;
    note_moves(states, chart, range, state, moves)?;
    Ok(())
}
