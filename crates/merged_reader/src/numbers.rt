//! The numbers that stand for those of open references.

ghost use Rattle.std.specs.Prelude.{◌≡◌};
ghost use Rattle.merged_reader.specs.NumbersInMemory as memory;

use number_kinds::{decimal_kind, hexadecimal_kind};
use open_pieces::{OpenAttribute, OpenPiece, OpenReference, OpenValue};

fn merged_reference(reference: OpenReference) -> OpenReference
    ensures { result ≡ memory.merged_reference reference }
{
    match reference {
        OpenReference::Entity(name) => OpenReference::Entity(name),
        OpenReference::Number => OpenReference::Number,
        OpenReference::Decimal(number) => OpenReference::Decimal(decimal_kind(number)),
        OpenReference::HexadecimalBegin => OpenReference::HexadecimalBegin,
        OpenReference::Hexadecimal(number) => {
            OpenReference::Hexadecimal(hexadecimal_kind(number))
        }
    }
}

fn merged_value(value: OpenValue) -> OpenValue
    ensures { result ≡ memory.merged_value value }
{
    match value {
        OpenValue::Text => OpenValue::Text,
        OpenValue::Reference(reference) => OpenValue::Reference(merged_reference(reference)),
        OpenValue::Fixed(text) => OpenValue::Fixed(text),
        OpenValue::Choice(word, is_spaced) => OpenValue::Choice(word, is_spaced),
        OpenValue::Words(is_inside, is_one) => OpenValue::Words(is_inside, is_one),
    }
}

fn merged_attribute(attribute: OpenAttribute) -> OpenAttribute
    ensures { result ≡ memory.merged_attribute attribute }
{
    match attribute {
        OpenAttribute::Between(is_spaced) => OpenAttribute::Between(is_spaced),
        OpenAttribute::Name(name) => OpenAttribute::Name(name),
        OpenAttribute::BehindName(name) => OpenAttribute::BehindName(name),
        OpenAttribute::BehindEquals(name) => OpenAttribute::BehindEquals(name),
        OpenAttribute::Value(name, quote, value) => {
            OpenAttribute::Value(name, quote, merged_value(value))
        }
    }
}

/// What is open, with the least number of its kind where a number is open.
pub fn merged_open(inside: OpenPiece) -> OpenPiece
    ensures { result ≡ memory.merged_open inside }
{
    match inside {
        OpenPiece::Nothing => OpenPiece::Nothing,
        OpenPiece::Reference(reference) => OpenPiece::Reference(merged_reference(reference)),
        OpenPiece::Opener(begun) => OpenPiece::Opener(begun),
        OpenPiece::TagName(name) => OpenPiece::TagName(name),
        OpenPiece::Tag(name, names, attribute) => {
            OpenPiece::Tag(name, names, merged_attribute(attribute))
        }
        OpenPiece::EmptyEnd(name, names) => OpenPiece::EmptyEnd(name, names),
        OpenPiece::EndTag(name, is_spaced) => OpenPiece::EndTag(name, is_spaced),
        OpenPiece::Comment(dashes) => OpenPiece::Comment(dashes),
        OpenPiece::Section(brackets) => OpenPiece::Section(brackets),
        OpenPiece::Target(target) => OpenPiece::Target(target),
        OpenPiece::OtherTarget => OpenPiece::OtherTarget,
        OpenPiece::BehindTarget => OpenPiece::BehindTarget,
        OpenPiece::Instruction(is_asked) => OpenPiece::Instruction(is_asked),
        OpenPiece::Declaration(names, attribute) => OpenPiece::Declaration(names, attribute),
        OpenPiece::DeclarationEnd => OpenPiece::DeclarationEnd,
        OpenPiece::Doctype(doctype) => OpenPiece::Doctype(doctype),
    }
}
