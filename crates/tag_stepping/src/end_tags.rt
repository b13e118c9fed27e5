//! End tags.

ghost use Rattle.std.specs.Prelude.{◌≡◌, IfOk};
ghost use Rattle.dtd_model.specs.TableOf.{table_of};
ghost use Rattle.page_model.specs.Attributes.{find_rule};
ghost use Rattle.page_steps.specs.PageSteps as steps;
ghost use Rattle.remark_stepping.specs.Views.{plain_move};

use crate::finding::declared;
use byte_readers::Emit;
use dtd_index::IndexedDtd;
use open_pieces::{Characters, OpenPiece, PagePlace};
use page_rules::{begins_name, in_name, is_blank, is_name};
use remark_stepping::PageMove;
use std::alloc::Global;
use text_base::{NoMemory, PageToken};

/// Behind `</`, so much of a name, and maybe white space (XML 1.0, 3.1).
pub fn end_tag_move(
    alloc: Global,
    indexed: &IndexedDtd<'_>,
    name: &Characters,
    is_spaced: bool,
    c: char,
) -> Result<PageMove, NoMemory>
    ensures { IfOk result
        (λ m. plain_move m ≡ steps.end_tag_move (table_of indexed.now.dtd.now) name.now is_spaced c) }
{
    match name.as_slice() {
        [] if begins_name(c) && !is_spaced => {
            let name = Characters::new(alloc).with(alloc, c)?;
            Ok(PageMove::Go(OpenPiece::EndTag(name, false)))
        }
        [] => Ok(PageMove::Fail),
        [_, ..] if in_name(c) && !is_spaced => {
            let more = name.with(alloc, c)?;
            Ok(PageMove::Go(OpenPiece::EndTag(more, false)))
        }
        [_, ..] => end_name_move(alloc, indexed, name, c),
    }
}

// Behind a name, which may end there, or behind white space.
fn end_name_move(
    alloc: Global,
    indexed: &IndexedDtd<'_>,
    name: &Characters,
    c: char,
) -> Result<PageMove, NoMemory>
    ensures { IfOk result
        (λ m. plain_move m ≡ steps.end_name_move (table_of indexed.now.dtd.now) name.now c) }
{
    if !is_name(name.as_slice()) {
        return Ok(PageMove::Fail);
    }
    if is_blank(c) {
        let name = name.copy(alloc)?;
        return Ok(PageMove::Go(OpenPiece::EndTag(name, true)));
    }
    if c == '>' {
        Ok(closed_move(indexed, name.as_slice()))
    } else {
        Ok(PageMove::Fail)
    }
}

fn closed_move(indexed: &IndexedDtd<'_>, name: &[char]) -> PageMove
    ensures { plain_move result ≡ steps.closed_move (table_of indexed.now.dtd.now) name.now
        (find_rule (table_of indexed.now.dtd.now).elements name.now) }
{
    match declared(indexed, name) {
        None => PageMove::Fail,
        Some(found) => {
            let end = Emit::One(PageToken::End(found.element));
            PageMove::Done(PagePlace::Behind(0), end)
        }
    }
}
