//! One character more in a page.

ghost use Rattle.std.specs.Prelude.{◌≡◌, IfOk};
ghost use Rattle.dtd_model.specs.TableOf.{table_of};
ghost use Rattle.page_steps.specs.PageSteps as steps;
ghost use Rattle.open_pieces.specs.Views.{plain_state};
ghost use Rattle.byte_stepping.specs.Views.{plain_move_by};

use crate::open_moves::open_move;
use byte_stepping::{StateMove, put_place};
use dtd_index::IndexedDtd;
use open_pieces::PageState;
use std::alloc::Global;
use text_base::NoMemory;
use xml_text::is_character;

/// One character more in a page, in whatever piece is open.
#[tactic(auto, unfolding(page_steps::specs::PageSteps::page_step))]
pub fn page_step(
    alloc: Global,
    indexed: &IndexedDtd<'_>,
    state: &PageState,
    c: char,
) -> Result<StateMove<PageState>, NoMemory>
    ensures { IfOk result (λ to. plain_move_by plain_state to
        ≡ steps.page_step (table_of indexed.now.dtd.now) (plain_state state.now) c) }
{
    if !is_character(c) {
        return Ok(StateMove::Fail);
    }
    let to = open_move(alloc, indexed, state.place, &state.inside, c)?;
    Ok(put_place(state.place, to))
}
