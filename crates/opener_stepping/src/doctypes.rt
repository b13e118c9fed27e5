//! In a document type declaration.

ghost use Rattle.std.specs.Prelude.{◌≡◌, IfOk};
ghost use Rattle.open_pieces.specs.Views.{plain_doctype};
ghost use Rattle.opener_stepping.specs.Views as steps;
ghost use Rattle.remark_stepping.specs.Views.{plain_move};

use byte_readers::Emit;
use doctype_stepping::{DoctypeTurn, doctype_turn};
use dtd_model::DoctypeRule;
use open_pieces::{OpenDoctype, OpenPiece, PagePlace};
use remark_stepping::PageMove;
use std::alloc::Global;
use text_base::{NoMemory, PageToken};

/// Behind `<!DOCTYPE` (XML 1.0, 2.8; XHTML 1.0, 3.1.1).
pub fn doctype_move(
    alloc: Global,
    rule: DoctypeRule,
    inside: &OpenDoctype,
    c: char,
) -> Result<PageMove, NoMemory>
    ensures { IfOk result
        (λ to. plain_move to ≡ steps.doctype_move rule (plain_doctype inside.now) c) }
{
    match doctype_turn(alloc, rule, inside, c)? {
        DoctypeTurn::On(more) => Ok(PageMove::Go(OpenPiece::Doctype(more))),
        DoctypeTurn::Out => Ok(PageMove::Done(PagePlace::Behind(0), Emit::One(PageToken::Doctype))),
        DoctypeTurn::Stop => Ok(PageMove::Fail),
    }
}
