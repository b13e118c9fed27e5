//! The machine of the pieces of `explode`.

ghost use Rattle.std.specs.Prelude.{◌≡◌, ◌+◌, ◌*◌, ◌<◌, ◌≤◌, ◌^◌, [], ◌∷◌, List, ℕ, length, Contains, IfOk, OnOk};
ghost use Rattle.string_functions.specs.Pieces.{pieces_of};
ghost use Rattle.string_ops.specs.Listed.{IsListed, IsMachine};
ghost use Rattle.string_ops.specs.Search.{AddsTurns, AddsStop};
ghost use Rattle.string_ops.specs.Piece.{piece_rows, piece_lasts};

use crate::search::{Search, add_ends, add_state, add_states};
use fst_core::{Table, TableEnd, TableMove};
use std::alloc::Global;
use string_functions::failures;
use text_base::{ByteRange, NoMemory};

/// The machine of `Op::Piece`; one that relates nothing where the separator is empty.
pub(crate) fn piece_machine(alloc: Global, sep: &[u8]) -> Result<Table, NoMemory>
    ensures { IfOk result
        (λ table. IsMachine table (length sep.now)
        (λ input output. Contains (pieces_of sep.now input) output)) }
{
    if sep.is_empty() {
        return Ok(Table::new(alloc, 1, 0));
    }
    let table = piece_table(alloc, sep)?;
    Ok(table)
}

/// A state between the pieces, one for each front of the separator before the piece and in it,
/// and one behind it.
fn piece_table(alloc: Global, sep: &[u8]) -> Result<Table, NoMemory>
    requires { 0 < length sep.now }
    ensures { IfOk result
        (λ table. IsListed table (2 + length sep.now + length sep.now) (piece_rows sep.now)
        (piece_lasts sep.now)) }
{
    let failures = failures(alloc, sep)?;
    let count = sep.len() as u64;
    let behind = 1 + count + count;
    let before = Search {
        pattern: sep,
        failures: failures.as_slice(),
        base: 1,
        full_to: 0,
        full_out: &[],
        shown: false,
    };
    let inside = Search {
        pattern: sep,
        failures: failures.as_slice(),
        base: 1 + count,
        full_to: behind,
        full_out: &[],
        shown: true,
    };
    let mut table = Table::new(alloc, behind + 1, 0);
    add_state(alloc, &mut table, 0, &before, 0)?;
    add_state(alloc, &mut table, 0, &inside, 0)?;
    add_states(alloc, &mut table, &before)?;
    add_states(alloc, &mut table, &inside)?;
    add_rest(alloc, &mut table, behind)?;
    stop_silently(alloc, &mut table, 0)?;
    add_ends(alloc, &mut table, 1 + count, sep)?;
    stop_silently(alloc, &mut table, behind)?;
    Ok(table)
}

/// Lets a state read all that is left, and put out nothing.
fn add_rest(alloc: Global, table: &mut Table, state: u64) -> Result<(), NoMemory>
    requires { state < table.old.states }
    ensures moves { OnOk result
        (AddsTurns table.old.moves.items table.new.moves.items state (λ byte. (state, []))) }
    ensures states { table.new.states ≡ table.old.states }
    ensures start { table.new.start ≡ table.old.start }
    ensures ends { table.new.ends.items ≡ table.old.ends.items }
{
    table.add_move(TableMove {
        from: state,
        range: ByteRange { lo: 0, hi: 255 },
        out: Vec::new(alloc),
        to: state,
    })?;
    Ok(())
}

/// Lets the text end in a state, and puts out nothing there.
pub(crate) fn stop_silently(alloc: Global, table: &mut Table, state: u64) -> Result<(), NoMemory>
    requires { state < table.old.states }
    ensures ends { OnOk result (AddsStop table.old.ends.items table.new.ends.items state) }
    ensures states { table.new.states ≡ table.old.states }
    ensures start { table.new.start ≡ table.old.start }
    ensures moves { table.new.moves.items ≡ table.old.moves.items }
{
    table.add_end(TableEnd {
        state,
        out: Vec::new(alloc),
    })?;
    Ok(())
}
