//! The state that stands for a state.

ghost use Rattle.std.specs.Prelude.{◌≡◌, IfOk};
ghost use Rattle.open_pieces.specs.Views.{plain_state};
ghost use Rattle.merged_reader.specs.Merging as merging;
ghost use Rattle.merged_reader.specs.States as states;

use crate::alike::takes_all_alike;
use crate::first_bytes::representative;
use crate::numbers::merged_open;
use open_pieces::{HeldState, PageState};
use page_reader::ReaderState;
use std::alloc::Global;
use text_base::{Bytes, NoMemory};

/// The state that stands for this one.
pub fn merged(alloc: Global, state: ReaderState) -> Result<ReaderState, NoMemory>
    ensures { IfOk result (λ s. s ≡ states.merged state) }
{
    match state {
        ReaderState::Failed => Ok(ReaderState::Failed),
        ReaderState::Reading(held) => Ok(ReaderState::Reading(merged_state(alloc, held)?)),
    }
}

fn merged_state(alloc: Global, held: HeldState) -> Result<HeldState, NoMemory>
    ensures { IfOk result (λ h. h ≡ states.merged_state held) }
{
    let HeldState { state, begun } = held;
    let begun = merged_begun(alloc, &state, begun)?;
    let PageState { place, inside } = state;
    let inside = merged_open(inside);
    Ok(HeldState {
        state: PageState { place, inside },
        begun,
    })
}

// What is kept of an open character.
fn merged_begun(alloc: Global, state: &PageState, begun: Bytes) -> Result<Bytes, NoMemory>
    ensures { IfOk result (λ first. first ≡ merging.merged_begun (plain_state state.now) begun) }
{
    if takes_all_alike(state) {
        representative(alloc, begun.as_slice())
    } else {
        Ok(begun)
    }
}
