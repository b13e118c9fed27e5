//! The reader.

ghost use Rattle.std.specs.Prelude.{◌≡◌};
ghost use Rattle.dtd_model.specs.Table.{Table};
ghost use Rattle.dtd_model.specs.TableOf.{table_of};
ghost use Rattle.piece_steps.specs.Readers.{to_state, put_out, last_tokens};
ghost use Rattle.page_narrowing.specs.Passing.{narrow_reader};
ghost use Rattle.byte_readers.specs.Reading.{emitted};
ghost use Rattle.character_steps.specs.Encoded.{is_some_byte};
ghost use Rattle.open_pieces.specs.Views.{plain_held, plain_place};
ghost use Rattle.byte_stepping.specs.Views.{plain_move_by};
ghost use Rattle.page_reader.specs.States.{coded, state_at, first_state, next_state, tokens_at, tokens_behind};

use crate::state::ReaderState;
use byte_readers::{ByteReader, Emit, ReaderStep};
use byte_stepping::{StateMove, at_state, is_inside};
use dtd_index::IndexedDtd;
use open_pieces::{HeldState, OpenPiece, PagePlace, PageState};
use page_stepping::narrow_step;
use std::alloc::Global;
use text_base::{NoMemory, PageToken};

/// The reader of the pages of a document type definition. Over each page it puts out exactly the
/// tokens of the page.
#[derive(Clone, Copy, Debug, Drop)]
pub struct PageReader<'a> {
    /// The definition.
    pub indexed: &'a IndexedDtd<'a>,
}

// Where a piece begins. Takes no memory.
fn beginning(alloc: Global, place: PagePlace) -> ReaderState
    ensures { result ≡ state_at (plain_place place) }
{
    ReaderState::Reading(at_state(
        alloc,
        PageState {
            place,
            inside: OpenPiece::Nothing,
        },
    ))
}

// Where a move leads, and what is put out at it.
fn step_by(alloc: Global, to: StateMove<HeldState>) -> ReaderStep<ReaderState>
    ensures to { (table : Table) → result.to
        ≡ coded (to_state (narrow_reader table) (plain_move_by plain_held to)) }
    ensures emit { (table : Table) → emitted result.emit
        ≡ put_out (narrow_reader table) (plain_move_by plain_held to) }
{
    match to {
        StateMove::Go(held) => ReaderStep {
            to: ReaderState::Reading(held),
            emit: Emit::Nothing,
        },
        StateMove::Done(place, emit) => ReaderStep {
            to: beginning(alloc, place),
            emit,
        },
        StateMove::Fail => ReaderStep {
            to: ReaderState::Failed,
            emit: Emit::One(PageToken::Bad),
        },
    }
}

// What is put out where the page ends.
fn emit_behind(state: &ReaderState) -> Emit
    ensures { (table : Table) → emitted result ≡ tokens_behind table state.now }
{
    match state {
        ReaderState::Failed => Emit::Nothing,
        ReaderState::Reading(held) => emit_left(held),
    }
}

// One bad token where some of a piece is read.
fn emit_left(held: &HeldState) -> Emit
    ensures { (table : Table) → emitted result
        ≡ last_tokens (narrow_reader table) (plain_held held.now) }
{
    if has_begun(held) || is_inside(&held.state.inside) {
        Emit::One(PageToken::Bad)
    } else {
        Emit::Nothing
    }
}

// Whether a character is open.
fn has_begun(held: &HeldState) -> bool
    ensures { result ≡ is_some_byte held.now.begun }
{
    match held.begun.as_slice() {
        [] => false,
        [_, ..] => true,
    }
}

impl<'a> ByteReader for PageReader<'a> {
    type State = ReaderState;

    ghost first = { λ r. first_state };

    ghost next = { λ r s b. next_state (table_of r.indexed.now.dtd.now) s b };

    ghost puts = { λ r s b. tokens_at (table_of r.indexed.now.dtd.now) s b };

    ghost lasts = { λ r s. tokens_behind (table_of r.indexed.now.dtd.now) s };

    fn copy(&self, alloc: Global, state: &ReaderState) -> Result<ReaderState, NoMemory> {
        state.copy(alloc)
    }

    fn start(&self, alloc: Global) -> Result<ReaderState, NoMemory> {
        Ok(beginning(alloc, PagePlace::AtBeginning))
    }

    fn step(
        &self,
        alloc: Global,
        state: &ReaderState,
        byte: u8,
    ) -> Result<ReaderStep<ReaderState>, NoMemory> {
        match state {
            ReaderState::Failed => Ok(ReaderStep {
                to: ReaderState::Failed,
                emit: Emit::Nothing,
            }),
            ReaderState::Reading(held) => {
                let to = narrow_step(alloc, self.indexed, held, byte)?;
                Ok(step_by(alloc, to))
            }
        }
    }

    fn last(&self, state: &ReaderState) -> Emit {
        emit_behind(state)
    }
}
