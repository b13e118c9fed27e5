//! One byte more in a page.

ghost use Rattle.std.specs.Prelude.{◌≡◌, IfOk};
ghost use Rattle.dtd_model.specs.TableOf.{table_of};
ghost use Rattle.character_steps.specs.Encoded as encoded;
ghost use Rattle.page_steps.specs.PageSteps as steps;
ghost use Rattle.piece_steps.specs.Readers as readers;
ghost use Rattle.page_narrowing.specs.Passing as passing;
ghost use Rattle.open_pieces.specs.Views.{plain_held, plain_state};
ghost use Rattle.byte_stepping.specs.Views.{plain_move_by};
ghost use Rattle.page_stepping.specs.Views as views;

use crate::states::page_step;
use byte_stepping::{StateMove, decoded, is_begun, lifted, page_hold};
use dtd_index::IndexedDtd;
use open_pieces::{HeldState, PageState};
use state_testing::passes;
use std::alloc::Global;
use text_base::{Bytes, NoMemory};

/// One byte more in a page; where a character is open, its bytes are kept beside the state.
pub fn byte_step(
    alloc: Global,
    indexed: &IndexedDtd<'_>,
    held: &HeldState,
    byte: u8,
) -> Result<StateMove<HeldState>, NoMemory>
    ensures { IfOk result (λ to. plain_move_by plain_held to
        ≡ encoded.byte_step (steps.page_reader (table_of indexed.now.dtd.now)) steps.page_hold
        (plain_held held.now) byte) }
{
    let mut begun = held.begun.copy(alloc)?;
    begun.push(byte)?;
    match decoded(begun.as_slice()) {
        Some(c) => {
            let to = page_step(alloc, indexed, &held.state, c)?;
            Ok(lifted(alloc, to))
        }
        None => held_move(alloc, &held.state, begun),
    }
}

// Where bytes are no whole character.
fn held_move(
    alloc: Global,
    state: &PageState,
    begun: Bytes,
) -> Result<StateMove<HeldState>, NoMemory>
    ensures { IfOk result
        (λ to. plain_move_by plain_held to ≡ views.held_move (plain_state state.now) begun) }
{
    if !is_begun(begun.as_slice()) {
        return Ok(StateMove::Fail);
    }
    let state = page_hold(alloc, state)?;
    Ok(StateMove::Go(HeldState { state, begun }))
}

/// One byte more in a page, where the reader fails as soon as no piece can come of the state.
pub fn narrow_step(
    alloc: Global,
    indexed: &IndexedDtd<'_>,
    held: &HeldState,
    byte: u8,
) -> Result<StateMove<HeldState>, NoMemory>
    ensures { IfOk result (λ to. plain_move_by plain_held to
        ≡ (passing.narrow_reader (table_of indexed.now.dtd.now)).step (plain_held held.now) byte) }
{
    let to = byte_step(alloc, indexed, held, byte)?;
    kept(alloc, indexed, to)
}

// The move, but that it fails at a state that does not pass.
fn kept(
    alloc: Global,
    indexed: &IndexedDtd<'_>,
    to: StateMove<HeldState>,
) -> Result<StateMove<HeldState>, NoMemory>
    ensures { IfOk result (λ led. plain_move_by plain_held led
        ≡ readers.kept (passing.passes (table_of indexed.now.dtd.now)) (plain_move_by plain_held to)) }
{
    match to {
        StateMove::Go(held) => {
            if passes(alloc, indexed, &held)? {
                Ok(StateMove::Go(held))
            } else {
                Ok(StateMove::Fail)
            }
        }
        StateMove::Done(place, emit) => Ok(StateMove::Done(place, emit)),
        StateMove::Fail => Ok(StateMove::Fail),
    }
}
