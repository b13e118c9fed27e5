//! The test of a state.

ghost use Rattle.std.specs.Prelude.{◌≡◌, IfOk};
ghost use Rattle.dtd_model.specs.TableOf.{table_of};
ghost use Rattle.open_pieces.specs.Views.{plain_held};
ghost use Rattle.page_narrowing.specs.Passing as passing;

use crate::going_on::goes_on_with;
use crate::pieces::open_can_end;
use crate::several::takes_several;
use dtd_index::IndexedDtd;
use open_pieces::HeldState;
use std::alloc::Global;
use text_base::NoMemory;

/// Whether a piece can still come of what is open, and of the first bytes of a character behind it.
pub fn passes(alloc: Global, indexed: &IndexedDtd<'_>, held: &HeldState) -> Result<bool, NoMemory>
    ensures { IfOk result (λ is. is
        ≡ passing.passes (table_of indexed.now.dtd.now) (plain_held held.now)) }
{
    if !open_can_end(alloc, indexed, &held.state.inside)? {
        return Ok(false);
    }
    if held.begun.as_slice().is_empty() {
        return Ok(true);
    }
    if !takes_several(&held.state.inside) {
        return Ok(false);
    }
    Ok(goes_on_with(indexed, &held.state.inside, held.begun.as_slice()))
}
