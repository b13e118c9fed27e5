//! Where a character of several bytes may stand.

ghost use Rattle.std.specs.Prelude.{◌≡◌};
ghost use Rattle.page_endings.specs.Ending as ending;
ghost use Rattle.open_pieces.specs.Views.{plain_attribute, plain_doctype, plain_open, plain_value};

use open_pieces::{OpenAttribute, OpenDoctype, OpenPiece, OpenValue};
use page_rules::is_quote;

fn value_takes(value: &OpenValue) -> bool
    ensures { result ≡ ending.value_takes (plain_value value.now) }
{
    match value {
        OpenValue::Text | OpenValue::Fixed(_) => true,
        OpenValue::Reference(_) | OpenValue::Choice(_, _) | OpenValue::Words(_, _) => false,
    }
}

fn attribute_takes(attribute: &OpenAttribute) -> bool
    ensures { result ≡ ending.attribute_takes (plain_attribute attribute.now) }
{
    match attribute {
        OpenAttribute::Value(_, quote, value) => !is_quote(*quote) || value_takes(value),
        OpenAttribute::Between(_)
        | OpenAttribute::Name(_)
        | OpenAttribute::BehindName(_)
        | OpenAttribute::BehindEquals(_) => false,
    }
}

fn doctype_takes(doctype: &OpenDoctype) -> bool
    ensures { result ≡ ending.doctype_takes (plain_doctype doctype.now) }
{
    match doctype {
        OpenDoctype::FreePublic(quote) | OpenDoctype::KeptPublic(quote, _) => !is_quote(*quote),
        OpenDoctype::System(_) => true,
        OpenDoctype::BeforeRoot(_)
        | OpenDoctype::Root(_)
        | OpenDoctype::BehindRoot
        | OpenDoctype::Word(_)
        | OpenDoctype::BehindWord(_)
        | OpenDoctype::BehindPublic(_)
        | OpenDoctype::BehindSystem => false,
    }
}

/// Whether a character of several bytes may stand next in the open piece.
pub fn takes_several(piece: &OpenPiece) -> bool
    ensures { result ≡ ending.takes_several (plain_open piece.now) }
{
    match piece {
        OpenPiece::Nothing | OpenPiece::Section(_) | OpenPiece::Instruction(_) => true,
        OpenPiece::Comment(dashes) => *dashes < 2,
        OpenPiece::Tag(_, _, attribute) | OpenPiece::Declaration(_, attribute) => {
            attribute_takes(attribute)
        }
        OpenPiece::Doctype(doctype) => doctype_takes(doctype),
        OpenPiece::Reference(_)
        | OpenPiece::Opener(_)
        | OpenPiece::TagName(_)
        | OpenPiece::EmptyEnd(_, _)
        | OpenPiece::EndTag(_, _)
        | OpenPiece::Target(_)
        | OpenPiece::OtherTarget
        | OpenPiece::BehindTarget
        | OpenPiece::DeclarationEnd => false,
    }
}
