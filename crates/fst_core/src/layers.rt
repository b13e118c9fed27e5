//! Whether a table relates two texts: layer by layer over the input, with the set of the states
//! that are reached, each with how much of the output it has put out.

ghost use Rattle.std.specs.Prelude.{◌≡◌, ◌≢◌, ℕ, ◌<◌, ◌≤◌, ◌++◌, ◌∷◌, [], ◌⊎◌, ◌↔◌, List, map, length, slice_index_or, slice_get, All, Contains, IfOk, OnOk, IfSome, IsTrue, MatchOption, if◌then◌else◌};
ghost use Rattle.text_base.specs.declared.letter.Letter.{Letter};
ghost use Rattle.text_base.specs.declared.letter.Letter.TheVariants.{OfByte};
ghost use Rattle.fst_core.specs.Letter.{letter_of};
ghost use Rattle.fst_core.specs.Tables.{TableRelates};
ghost use Rattle.fst_core.specs.Layers.{letters_from, SomeGives, ByMove, ByMoves, TableGives, IsIndex, StopsBy};

use crate::indexed::moves_by_state;
use crate::moves::{TableEnd, TableMove};
use crate::out::Out;
use crate::table::Table;
use indexmap::IndexSet;
use std::alloc::Global;
use text_base::NoMemory;

/// A state that a run may be in, and how many bytes of the output it has put out by then.
#[derive(Clone, Copy, Debug, PartialEq, Eq, Hash)]
struct Reached {
    state: u64,
    written: usize,
}

/// Whether one thing put out, as `byte` is read, is the byte `wanted`.
fn puts(out: Out, byte: u8, wanted: u8) -> bool
    ensures { IsTrue result ↔ (letter_of byte out ≡ OfByte wanted) }
{
    match out {
        Out::Same => byte == wanted,
        Out::Shift(by) => byte.wrapping_add(by) == wanted,
        Out::Byte(own) => own == wanted,
        Out::Token(_) => false,
    }
}

/// How far the output is written after all of `out`, put out as `byte` is read, where it was
/// written up to `from`; None where the output goes on otherwise.
fn written_after(out: &[Out], byte: u8, output: &[u8], from: usize) -> Option<usize>
    ensures puts { MatchOption result
        ((rest : List Letter) → letters_from output.now from ≢ map (letter_of byte) out.now ++ rest)
        (λ at. letters_from output.now from ≡ map (letter_of byte) out.now
        ++ letters_from output.now at) }
    ensures within { IfSome result (λ at. (from ≤ length output.now) ↔ (at ≤ length output.now)) }
{
    let mut at = from;
    for one in out {
        if at >= output.len() {
            return None;
        }
        if !puts(*one, byte, output[at]) {
            return None;
        }
        at += 1;
    }
    Some(at)
}

/// Adds where a move leads by a byte, if the output goes on so.
fn try_move(
    table: &Table,
    next: &mut IndexSet<Reached>,
    step: &TableMove,
    written: usize,
    byte: u8,
    output: &[u8],
) -> Result<(), NoMemory>
    ensures { OnOk result ((text : List ℕ) → SomeGives table.now next.new.keys text output.now
        ↔ (SomeGives table.now next.old.keys text output.now
        ⊎ ByMove table.now step.now written byte text output.now)) }
{
    if byte < step.range.lo || step.range.hi < byte {
        return Ok(());
    }
    let Some(written) = written_after(step.out.as_slice(), byte, output, written) else {
        return Ok(());
    };
    add_reached(
        next,
        Reached {
            state: step.to,
            written,
        },
    )?;
    Ok(())
}

/// Adds a place that is reached, unless it is there.
fn add_reached(next: &mut IndexSet<Reached>, reached: Reached) -> Result<(), NoMemory>
    ensures { OnOk result
        ((r : Reached) → Contains next.new.keys r ↔ (Contains next.old.keys r ⊎ (r ≡ reached))) }
{
    let (_, _) = next.insert_full(reached)?;
    Ok(())
}

/// Adds where the moves at these places lead by a byte, if the output goes on so.
fn try_moves(
    table: &Table,
    next: &mut IndexSet<Reached>,
    places: &[usize],
    written: usize,
    byte: u8,
    output: &[u8],
) -> Result<(), NoMemory>
    requires { All (λ i. i < length table.now.moves.items) places.now }
    ensures { OnOk result ((text : List ℕ) → SomeGives table.now next.new.keys text output.now
        ↔ (SomeGives table.now next.old.keys text output.now
        ⊎ ByMoves table.now places.now written byte text output.now)) }
{
    for place in places {
        try_move(table, next, &table.moves[*place], written, byte, output)?;
    }
    Ok(())
}

/// Adds where the moves from a place that is reached lead by a byte.
fn follow(
    table: &Table,
    index: &[Vec<usize>],
    next: &mut IndexSet<Reached>,
    reached: Reached,
    byte: u8,
    output: &[u8],
) -> Result<(), NoMemory>
    requires { IsIndex table.now.moves.items index.now }
    ensures { OnOk result ((text : List ℕ) → SomeGives table.now next.new.keys text output.now
        ↔ (SomeGives table.now next.old.keys text output.now
        ⊎ SomeGives table.now (reached ∷ []) (byte ∷ text) output.now)) }
{
    let Some(places) = index.get(reached.state as usize) else {
        return Ok(());
    };
    try_moves(
        table,
        next,
        places.as_slice(),
        reached.written,
        byte,
        output,
    )?;
    Ok(())
}

/// The places that are reached after one byte more.
fn next_layer(
    alloc: Global,
    table: &Table,
    index: &[Vec<usize>],
    layer: &[Reached],
    byte: u8,
    output: &[u8],
) -> Result<IndexSet<Reached>, NoMemory>
    requires { IsIndex table.now.moves.items index.now }
    ensures { IfOk result (λ next. (text : List ℕ) → SomeGives table.now next.keys text output.now
        ↔ SomeGives table.now layer.now (byte ∷ text) output.now) }
{
    let mut next = IndexSet::new(alloc);
    for reached in layer {
        follow(table, index, &mut next, *reached, byte, output)?;
    }
    Ok(next)
}

/// Where the output has to have been written up to for an end to put out just what is left; None
/// where there is no such place.
fn written_before(out: &[Out], output: &[u8]) -> Option<usize>
    ensures { MatchOption result
        ((at : ℕ) → at ≤ length output.now → letters_from output.now at ≢ map (letter_of 0) out.now)
        (λ at. (at ≤ length output.now) × (letters_from output.now at ≡ map (letter_of 0) out.now)) }
{
    if out.len() > output.len() {
        return None;
    }
    let at = output.len() - out.len();
    match written_after(out, 0, output, at) {
        Some(_) => Some(at),
        None => None,
    }
}

/// Whether an end is one of the places that are reached, and puts out what is left there.
fn stops_by(end: &TableEnd, layer: &IndexSet<Reached>, output: &[u8]) -> bool
    ensures { IsTrue result ↔ StopsBy layer.now.keys output.now end.now }
{
    match written_before(end.out.as_slice(), output) {
        Some(written) => layer.contains(&Reached {
            state: end.state,
            written,
        }),
        None => false,
    }
}

/// Whether the text may end at one of the places that are reached.
fn stops_at(table: &Table, layer: &IndexSet<Reached>, output: &[u8]) -> bool
    ensures { IsTrue result ↔ SomeGives table.now layer.now.keys [] output.now }
{
    for end in &table.ends {
        if stops_by(end, layer, output) {
            return true;
        }
    }
    false
}

/// For each state, the places of its moves in the table.
fn index_of(alloc: Global, table: &Table) -> Result<Vec<Vec<usize>>, NoMemory>
    ensures { IfOk result (λ index. IsIndex table.now.moves.items index.items) }
{
    let index = moves_by_state(alloc, table)?;
    Ok(index)
}

/// Whether the table may put out the output over the input. It takes time and memory within the
/// moves and states, times the bytes of the input, times the bytes of the output.
pub fn applies(alloc: Global, table: &Table, input: &[u8], output: &[u8]) -> Result<bool, NoMemory>
    ensures { IfOk result
        (λ answer. IsTrue answer ↔ TableRelates table.now input.now (map OfByte output.now)) }
{
    let index = index_of(alloc, table)?;
    let mut layer = IndexSet::new(alloc);
    add_reached(
        &mut layer,
        Reached {
            state: table.start,
            written: 0,
        },
    )?;
    for byte in input {
        layer = next_layer(
            alloc,
            table,
            index.as_slice(),
            layer.as_slice(),
            *byte,
            output,
        )?;
    }
    Ok(stops_at(table, &layer, output))
}
