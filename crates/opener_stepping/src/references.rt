//! In a reference.

ghost use Rattle.std.specs.Prelude.{◌≡◌, IfOk};
ghost use Rattle.dtd_model.specs.TableOf.{table_of};
ghost use Rattle.page_steps.specs.PageSteps as steps;
ghost use Rattle.open_pieces.specs.Views.{plain_reference};
ghost use Rattle.opener_stepping.specs.Views.{reference_ended};
ghost use Rattle.remark_stepping.specs.Views.{plain_move};

use byte_readers::Emit;
use dtd_index::IndexedDtd;
use open_pieces::{OpenPiece, OpenReference, PagePlace};
use reference_stepping::{reference_good, reference_step};
use remark_stepping::PageMove;
use std::alloc::Global;
use text_base::{NoMemory, PageToken};

/// Behind `&`, up to `;` (XML 1.0, 4.1).
pub fn reference_move(
    alloc: Global,
    indexed: &IndexedDtd<'_>,
    reference: &OpenReference,
    c: char,
) -> Result<PageMove, NoMemory>
    ensures { IfOk result (λ to. plain_move to
        ≡ steps.reference_move (table_of indexed.now.dtd.now).entities
        (plain_reference reference.now) c) }
{
    if c == ';' {
        return Ok(reference_end(indexed, reference));
    }
    match reference_step(alloc, reference, c)? {
        Some(more) => Ok(PageMove::Go(OpenPiece::Reference(more))),
        None => Ok(PageMove::Fail),
    }
}

fn reference_end(indexed: &IndexedDtd<'_>, reference: &OpenReference) -> PageMove
    ensures { plain_move result
        ≡ reference_ended (table_of indexed.now.dtd.now).entities (plain_reference reference.now) }
{
    if reference_good(indexed, reference) {
        PageMove::Done(PagePlace::Behind(0), Emit::One(PageToken::Text))
    } else {
        PageMove::Fail
    }
}
