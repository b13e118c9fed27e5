//! The XML declaration.

ghost use Rattle.std.specs.Prelude.{◌≡◌, IfOk};
ghost use Rattle.page_steps.specs.AttributeSteps.{attribute_move};
ghost use Rattle.page_steps.specs.PageSteps as steps;
ghost use Rattle.page_steps.specs.TagSteps.{of_declaration};
ghost use Rattle.open_pieces.specs.Views.{plain_attribute};
ghost use Rattle.attribute_stepping.specs.Views as attributes;
ghost use Rattle.remark_stepping.specs.Views.{plain_move};

use attribute_stepping::{Allowing, AttributeMove, attribute_move};
use open_pieces::{NameList, OpenAttribute, OpenPiece};
use remark_stepping::PageMove;
use std::alloc::Global;
use text_base::NoMemory;

/// In the XML declaration, with attributes of these names (XML 1.0, 2.8).
pub fn declaration_move(
    alloc: Global,
    names: &NameList,
    inside: &OpenAttribute,
    c: char,
) -> Result<PageMove, NoMemory>
    ensures { IfOk result (λ m. plain_move m
        ≡ steps.declaration_by names.now c
        (attribute_move of_declaration names.now (plain_attribute inside.now) c)) }
{
    let moved = attribute_move(alloc, &Allowing::Declaration, names, inside, c)?;
    declaration_by(alloc, names, c, moved)
}

fn declaration_by(
    alloc: Global,
    names: &NameList,
    c: char,
    moved: AttributeMove,
) -> Result<PageMove, NoMemory>
    ensures { IfOk result
        (λ m. plain_move m ≡ steps.declaration_by names.now c (attributes.plain_move moved)) }
{
    match moved {
        AttributeMove::Stays(inside) => {
            let names = names.copy(alloc)?;
            Ok(PageMove::Go(OpenPiece::Declaration(names, inside)))
        }
        AttributeMove::EndsWith(more) => {
            let between = OpenAttribute::Between(false);
            Ok(PageMove::Go(OpenPiece::Declaration(more, between)))
        }
        AttributeMove::Leaves => Ok(question_move(names, c)),
        AttributeMove::Stops => Ok(PageMove::Fail),
    }
}

// The `?` behind at least one attribute.
fn question_move(names: &NameList, c: char) -> PageMove
    ensures { plain_move result ≡ steps.question_move names.now c }
{
    match names.as_slice() {
        [] => PageMove::Fail,
        [_, ..] if c == '?' => PageMove::Go(OpenPiece::DeclarationEnd),
        [_, ..] => PageMove::Fail,
    }
}
