//! One character more, by what is open.

ghost use Rattle.std.specs.Prelude.{◌≡◌, IfOk};
ghost use Rattle.dtd_model.specs.TableOf.{table_of};
ghost use Rattle.page_steps.specs.PageSteps as steps;
ghost use Rattle.open_pieces.specs.Views.{plain_open, plain_place};
ghost use Rattle.remark_stepping.specs.Views.{plain_move};

use dtd_index::IndexedDtd;
use open_pieces::{OpenPiece, PagePlace};
use opener_stepping::{doctype_move, first_move, opener_move, reference_move};
use remark_stepping::{
    PageMove, comment_move, declaration_end, instruction_move, remark_end, section_move,
};
use std::alloc::Global;
use tag_stepping::{declaration_move, empty_move, end_tag_move, tag_move, tag_name_move};
use target_stepping::{other_target_move, target_move};
use text_base::NoMemory;

/// One character more in a page, by what is open.
pub fn open_move(
    alloc: Global,
    indexed: &IndexedDtd<'_>,
    place: PagePlace,
    inside: &OpenPiece,
    c: char,
) -> Result<PageMove, NoMemory>
    ensures { IfOk result (λ to. plain_move to
        ≡ steps.open_move (table_of indexed.now.dtd.now) (plain_place place) (plain_open inside.now)
        c) }
{
    match inside {
        OpenPiece::Nothing => first_move(alloc, place, c),
        OpenPiece::Reference(reference) => reference_move(alloc, indexed, reference, c),
        OpenPiece::Opener(begun) => opener_move(alloc, begun, c),
        OpenPiece::TagName(name) => tag_name_move(alloc, indexed, name, c),
        OpenPiece::Tag(name, names, attribute) => {
            tag_move(alloc, indexed, name, names, attribute, c)
        },
        OpenPiece::EmptyEnd(name, names) => Ok(empty_move(indexed, name, names, c)),
        OpenPiece::EndTag(name, is_spaced) => end_tag_move(alloc, indexed, name, *is_spaced, c),
        OpenPiece::Comment(dashes) => Ok(comment_move(*dashes, c)),
        OpenPiece::Section(brackets) => Ok(section_move(*brackets, c)),
        OpenPiece::Target(target) => target_move(alloc, place, target, c),
        OpenPiece::OtherTarget => Ok(other_target_move(c)),
        OpenPiece::BehindTarget => Ok(remark_end(c)),
        OpenPiece::Instruction(is_asked) => Ok(instruction_move(*is_asked, c)),
        OpenPiece::Declaration(names, attribute) => declaration_move(alloc, names, attribute, c),
        OpenPiece::DeclarationEnd => Ok(declaration_end(c)),
        OpenPiece::Doctype(doctype) => doctype_move(alloc, indexed.dtd.doctype, doctype, c),
    }
}
