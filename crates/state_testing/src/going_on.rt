//! What goes on with the first bytes of a character.

ghost use Rattle.std.specs.Prelude.{◌≡◌, map};
ghost use Rattle.dtd_model.specs.Table.{declared_of};
ghost use Rattle.dtd_model.specs.TableOf.{table_of};
ghost use Rattle.page_model.specs.Attributes as attributes;
ghost use Rattle.page_endings.specs.Ending as ending;
ghost use Rattle.open_pieces.specs.Views.{plain_attribute, plain_open, plain_value};
ghost use Rattle.page_rules.specs.Found.{plain_declared};

use crate::fixed::fixed_goes_on;
use dtd_index::IndexedDtd;
use dtd_model::AttrRule;
use open_pieces::{OpenAttribute, OpenPiece, OpenValue};
use page_rules::{element, find_declared, is_quote};

fn value_goes_on(rule: Option<&AttrRule>, value: &OpenValue, begun: &[u8]) -> bool
    ensures { result
        ≡ ending.value_goes_on (plain_declared rule.entry) (plain_value value.now) begun.now }
{
    match rule {
        None => true,
        Some(rule) => match value {
            OpenValue::Fixed(text) => fixed_goes_on(&rule.need, text.as_slice(), begun),
            OpenValue::Text
            | OpenValue::Reference(_)
            | OpenValue::Choice(_, _)
            | OpenValue::Words(_, _) => true,
        },
    }
}

fn attribute_goes_on(rules: &Vec<AttrRule>, attribute: &OpenAttribute, begun: &[u8]) -> bool
    ensures { result ≡ ending.attribute_goes_on (map declared_of rules.now.items)
        (plain_attribute attribute.now) begun.now }
{
    match attribute {
        OpenAttribute::Value(name, quote, value) => {
            !is_quote(*quote) || value_goes_on(find_declared(rules, name.as_slice()), value, begun)
        }
        OpenAttribute::Between(_)
        | OpenAttribute::Name(_)
        | OpenAttribute::BehindName(_)
        | OpenAttribute::BehindEquals(_) => true,
    }
}

fn tag_goes_on(
    indexed: &IndexedDtd<'_>,
    name: &[char],
    attribute: &OpenAttribute,
    begun: &[u8],
) -> bool
    ensures { result ≡ ending.tag_goes_on
        (attributes.find_rule (table_of indexed.now.dtd.now).elements name.now)
        (plain_attribute attribute.now) begun.now }
{
    let Some(element) = element(indexed, name) else {
        return true;
    };
    let rules = &indexed.dtd.elements[usize::from(element.0)].attributes;
    attribute_goes_on(rules, attribute, begun)
}

fn declared_word_goes_on(attribute: &OpenAttribute) -> bool
    ensures { result ≡ ending.declared_word_goes_on (plain_attribute attribute.now) }
{
    match attribute {
        OpenAttribute::Value(_, quote, _) => !is_quote(*quote),
        OpenAttribute::Between(_)
        | OpenAttribute::Name(_)
        | OpenAttribute::BehindName(_)
        | OpenAttribute::BehindEquals(_) => true,
    }
}

/// Whether what is open goes on with these first bytes of a character: a value that is compared
/// where it has them.
pub fn goes_on_with(indexed: &IndexedDtd<'_>, piece: &OpenPiece, begun: &[u8]) -> bool
    ensures { result
        ≡ ending.goes_on_with (table_of indexed.now.dtd.now) (plain_open piece.now) begun.now }
{
    match piece {
        OpenPiece::Tag(name, _, attribute) => {
            tag_goes_on(indexed, name.as_slice(), attribute, begun)
        }
        OpenPiece::Declaration(_, attribute) => declared_word_goes_on(attribute),
        OpenPiece::Nothing
        | OpenPiece::Reference(_)
        | OpenPiece::Opener(_)
        | OpenPiece::TagName(_)
        | OpenPiece::EmptyEnd(_, _)
        | OpenPiece::EndTag(_, _)
        | OpenPiece::Comment(_)
        | OpenPiece::Section(_)
        | OpenPiece::Target(_)
        | OpenPiece::OtherTarget
        | OpenPiece::BehindTarget
        | OpenPiece::Instruction(_)
        | OpenPiece::DeclarationEnd
        | OpenPiece::Doctype(_) => true,
    }
}
