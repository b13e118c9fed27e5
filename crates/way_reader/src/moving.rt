//! The ways behind a byte, and where they lead.

ghost use Rattle.std.specs.Prelude.{◌≡◌, ◌++◌, List, IfOk, OnOk};
ghost use Rattle.byte_readers.specs.Reading.{emitted};
ghost use Rattle.page_model.specs.Places.{Place};
ghost use Rattle.partial_derivatives.specs.Parts.{behind_parts};
ghost use Rattle.piece_steps.specs.Readers.{put_out, to_state};
ghost use Rattle.way_reader.specs.Ways.{coded, move_by, way_reader, ways_by};
ghost use Rattle.way_reader.specs.Ways as spec;
ghost use Rattle.way_reader.specs.declared.way.Way as declared;

use crate::way::{Way, WayState};
use byte_readers::{Emit, ReaderStep};
use derivatives::Arena;
use partial_derivatives::{Row, Taking, all_end, copy_parts};
use text_base::{NoMemory, PageToken};

/// Puts the ways that a byte leaves of one behind others.
fn push_behind(taking: &Taking<'_>, ways: &mut Row<Way>, way: &Way) -> Result<(), NoMemory>
    ensures { OnOk result
        (ways.new ≡ ways.old
        ++ ways_by way.now (behind_parts taking.now.arena.now taking.now.byte way.now.parts)) }
{
    let mut rows = Vec::new(taking.alloc);
    taking.parts(&mut rows, way.parts.as_slice())?;
    for parts in rows.as_slice() {
        ways.push(Way {
            parts: copy_parts(taking.alloc, parts.as_slice())?,
            emit: way.emit,
            to: way.to,
        })?;
    }
    Ok(())
}

/// The ways that a byte leaves of these.
pub fn ways_behind(taking: &Taking<'_>, ways: &[Way]) -> Result<Row<Way>, NoMemory>
    ensures { IfOk result
        (λ row. row ≡ spec.ways_behind taking.now.arena.now taking.now.byte ways.now) }
{
    let mut row = Row::new(taking.alloc);
    for way in ways {
        push_behind(taking, &mut row, way)?;
    }
    Ok(row)
}

/// Where ways lead: a piece ends by the first that may end here, and no piece comes of the text
/// where there is none.
pub fn step_by(arena: &Arena, ways: Row<Way>) -> ReaderStep<WayState>
    ensures to { (starts : Place → List declared.Way) → result.to
        ≡ coded (to_state (way_reader arena.now starts) (move_by ways (spec.ended arena.now ways))) }
    ensures emit { (starts : Place → List declared.Way) → emitted result.emit
        ≡ put_out (way_reader arena.now starts) (move_by ways (spec.ended arena.now ways)) }
{
    for way in ways.as_slice() {
        if all_end(arena, way.parts.as_slice()) {
            return ReaderStep {
                to: WayState::At(way.to),
                emit: way.emit,
            };
        }
    }
    if ways.as_slice().is_empty() {
        ReaderStep {
            to: WayState::Failed,
            emit: Emit::One(PageToken::Bad),
        }
    } else {
        ReaderStep {
            to: WayState::Inside(ways),
            emit: Emit::Nothing,
        }
    }
}
