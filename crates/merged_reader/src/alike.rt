//! The states of a page in which all characters of several bytes lead on alike.

ghost use Rattle.std.specs.Prelude.{◌≡◌};
ghost use Rattle.open_pieces.specs.Views.{plain_attribute, plain_doctype, plain_open, plain_place, plain_state, plain_value};
ghost use Rattle.merged_reader.specs.Merging as merging;

use open_pieces::{OpenAttribute, OpenDoctype, OpenPiece, OpenValue, PagePlace, PageState};
use page_rules::is_quote;

fn place_alike(place: PagePlace) -> bool
    ensures { result ≡ merging.place_alike (plain_place place) }
{
    match place {
        PagePlace::AtBeginning => false,
        PagePlace::BehindMark | PagePlace::Behind(_) => true,
    }
}

fn value_alike(value: &OpenValue) -> bool
    ensures { result ≡ merging.value_alike (plain_value value.now) }
{
    matches!(value, OpenValue::Text)
}

fn attribute_alike(attribute: &OpenAttribute) -> bool
    ensures { result ≡ merging.attribute_alike (plain_attribute attribute.now) }
{
    match attribute {
        OpenAttribute::Value(_, quote, value) => is_quote(*quote) && value_alike(value),
        OpenAttribute::Between(_)
        | OpenAttribute::Name(_)
        | OpenAttribute::BehindName(_)
        | OpenAttribute::BehindEquals(_) => false,
    }
}

fn doctype_alike(doctype: &OpenDoctype) -> bool
    ensures { result ≡ merging.doctype_alike (plain_doctype doctype.now) }
{
    match doctype {
        OpenDoctype::System(quote) => is_quote(*quote),
        OpenDoctype::BeforeRoot(_)
        | OpenDoctype::Root(_)
        | OpenDoctype::BehindRoot
        | OpenDoctype::Word(_)
        | OpenDoctype::BehindWord(_)
        | OpenDoctype::FreePublic(_)
        | OpenDoctype::KeptPublic(_, _)
        | OpenDoctype::BehindPublic(_)
        | OpenDoctype::BehindSystem => false,
    }
}

fn open_alike(place: PagePlace, inside: &OpenPiece) -> bool
    ensures { result ≡ merging.open_alike (plain_place place) (plain_open inside.now) }
{
    match inside {
        OpenPiece::Nothing => place_alike(place),
        OpenPiece::Tag(_, _, attribute) => attribute_alike(attribute),
        OpenPiece::Comment(_) | OpenPiece::Section(_) | OpenPiece::Instruction(_) => true,
        OpenPiece::Doctype(doctype) => doctype_alike(doctype),
        OpenPiece::Reference(_)
        | OpenPiece::Opener(_)
        | OpenPiece::TagName(_)
        | OpenPiece::EmptyEnd(_, _)
        | OpenPiece::EndTag(_, _)
        | OpenPiece::Target(_)
        | OpenPiece::OtherTarget
        | OpenPiece::BehindTarget
        | OpenPiece::Declaration(_, _)
        | OpenPiece::DeclarationEnd => false,
    }
}

/// Whether all characters of several bytes lead on alike.
pub fn takes_all_alike(state: &PageState) -> bool
    ensures { result ≡ merging.takes_all_alike (plain_state state.now) }
{
    open_alike(state.place, &state.inside)
}
