//! What is kept of a state.

ghost use Rattle.std.specs.Prelude.{◌≡◌, IfOk};
ghost use Rattle.character_steps.specs.Encoded as encoded;
ghost use Rattle.page_model.specs.Fronts as fronts;
ghost use Rattle.page_model.specs.Places.{behind};
ghost use Rattle.page_steps.specs.PageSteps as steps;
ghost use Rattle.open_pieces.specs.Views.{plain_held, plain_open, plain_place, plain_state};
ghost use Rattle.remark_stepping.specs.Views.{plain_move};
ghost use Rattle.byte_stepping.specs.Views.{plain_move_by};

use crate::state_move::StateMove;
use open_pieces::{HeldState, OpenPiece, PagePlace, PageState};
use remark_stepping::PageMove;
use std::alloc::Global;
use text_base::{Bytes, NoMemory};

/// What is kept of the place: the brackets before it only where nothing is open, not even a
/// character.
pub fn kept_place(inside: &OpenPiece, begun: &[u8], place: PagePlace) -> PagePlace
    ensures { plain_place result
        ≡ fronts.kept_place (plain_open inside.now) begun.now (plain_place place) }
{
    match place {
        PagePlace::AtBeginning => PagePlace::AtBeginning,
        PagePlace::BehindMark => PagePlace::BehindMark,
        PagePlace::Behind(brackets) => PagePlace::Behind(kept_brackets(inside, begun, brackets)),
    }
}

fn kept_brackets(inside: &OpenPiece, begun: &[u8], brackets: u8) -> u8
    ensures { behind result
        ≡ fronts.kept_place (plain_open inside.now) begun.now (behind brackets) }
{
    match inside {
        OpenPiece::Nothing => unheld_brackets(begun, brackets),
        OpenPiece::Reference(_)
        | OpenPiece::Opener(_)
        | OpenPiece::TagName(_)
        | OpenPiece::Tag(_, _, _)
        | OpenPiece::EmptyEnd(_, _)
        | OpenPiece::EndTag(_, _)
        | OpenPiece::Comment(_)
        | OpenPiece::Section(_)
        | OpenPiece::Target(_)
        | OpenPiece::OtherTarget
        | OpenPiece::BehindTarget
        | OpenPiece::Instruction(_)
        | OpenPiece::Declaration(_, _)
        | OpenPiece::DeclarationEnd
        | OpenPiece::Doctype(_) => 0,
    }
}

fn unheld_brackets(begun: &[u8], brackets: u8) -> u8
    ensures { behind result ≡ fronts.kept_place fronts.nothing begun.now (behind brackets) }
{
    match begun {
        [] => brackets,
        [_, ..] => 0,
    }
}

/// Whether some of a piece is read.
pub fn is_inside(inside: &OpenPiece) -> bool
    ensures { result ≡ steps.is_inside (plain_open inside.now) }
{
    !matches!(inside, OpenPiece::Nothing)
}

/// A move of what is open as one of states.
pub fn put_place(place: PagePlace, to: PageMove) -> StateMove<PageState>
    ensures { plain_move_by plain_state result
        ≡ steps.put_place (plain_place place) (plain_move to) }
{
    match to {
        PageMove::Go(inside) => {
            let place = kept_place(&inside, b"", place);
            StateMove::Go(PageState { place, inside })
        }
        PageMove::Done(place, emit) => StateMove::Done(place, emit),
        PageMove::Fail => StateMove::Fail,
    }
}

/// What is kept of a state while a character of several bytes is open.
pub fn page_hold(alloc: Global, state: &PageState) -> Result<PageState, NoMemory>
    ensures { IfOk result (λ held. plain_state held ≡ steps.page_hold (plain_state state.now)) }
{
    let inside = state.inside.copy(alloc)?;
    let place = kept_place(&inside, b"\x80", state.place);
    Ok(PageState { place, inside })
}

/// The state, with no open character. Takes no memory.
pub fn at_state(alloc: Global, state: PageState) -> HeldState
    ensures { plain_held result ≡ encoded.at_state (plain_state state) }
{
    HeldState {
        state,
        begun: Bytes::new(alloc),
    }
}

/// A move by a character as one by its last byte. Takes no memory.
pub fn lifted(alloc: Global, to: StateMove<PageState>) -> StateMove<HeldState>
    ensures { plain_move_by plain_held result ≡ encoded.lifted (plain_move_by plain_state to) }
{
    match to {
        StateMove::Go(state) => StateMove::Go(at_state(alloc, state)),
        StateMove::Done(place, emit) => StateMove::Done(place, emit),
        StateMove::Fail => StateMove::Fail,
    }
}
