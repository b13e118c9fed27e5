//! What XML asks of a piece beyond its form.

ghost use Rattle.std.specs.Prelude.{◌≡◌, map};
ghost use Rattle.std.specs.List.{list_all};
ghost use Rattle.page_model.specs.Pieces as pieces;
ghost use Rattle.page_model.specs.Parts as parts;
ghost use Rattle.xml_text.specs.Characters as characters;
ghost use Rattle.xml_text.specs.Names as names;
ghost use Rattle.page_model.specs.Places as places;
ghost use Rattle.page_model.specs.Prolog as prolog;
ghost use Rattle.page_model.specs.Right as spec;
ghost use Rattle.page_rules.specs.Views.{attribute_of, identifier_of, literal_of, piece_of, place_of};

use crate::characters::{are_characters, begins_blank, may_be_quoted};
use crate::{
    Attribute, Identifier, Literal, Piece, Place, in_public_identifier, is_reference, is_some,
    is_word, is_word_in_any_case, refers,
};
use xml_text::is_character;

/// Whether the piece is as XML asks at this place.
pub fn is_right(place: Place, piece: &Piece<'_>) -> bool
    ensures { result ≡ spec.is_right (place_of place) (piece_of piece.now) }
{
    match piece {
        Piece::Mark | Piece::End(_, _) => true,
        Piece::Declaration(declaration) => {
            let attributes = declaration.attributes.as_slice();
            is_early(place) && attributes_are_right(attributes) && is_in_order(attributes)
        }
        Piece::Doctype(doctype) => {
            is_some(doctype.space) && identifier_is_right(doctype.identifier)
        }
        Piece::Start(tag) | Piece::Empty(tag) => attributes_are_right(tag.attributes.as_slice()),
        Piece::Character(c) => may_follow(place, *c) && is_character(*c),
        Piece::Reference(reference) => is_reference(*reference),
        Piece::Section(text) | Piece::Comment(text) => are_characters(text),
        Piece::Instruction(target, text) => instruction_is_right(target, text),
    }
}

fn is_early(place: Place) -> bool
    ensures { result ≡ places.is_early (place_of place) }
{
    match place {
        Place::Beginning | Place::BehindMark => true,
        Place::Behind(_) => false,
    }
}

// Whether the character may stand there as text.
fn may_follow(place: Place, c: char) -> bool
    ensures { result ≡ pieces.may_follow (place_of place) (parts.character c) }
{
    match place {
        Place::Beginning => c != '\u{FEFF}',
        Place::BehindMark => true,
        Place::Behind(brackets) => !(c == '>' && brackets == 2),
    }
}

fn instruction_is_right(target: &[char], text: &[char]) -> bool
    ensures { result ≡ spec.leaf_is_right (parts.instruction target.now text.now) }
{
    !is_word_in_any_case(target, b"xml") && begins_blank(text) && are_characters(text)
}

fn attributes_are_right(attributes: &[Attribute<'_>]) -> bool
    ensures { result ≡ list_all spec.attribute_is_right (map attribute_of attributes.now) }
{
    for attribute in attributes {
        if !attribute_is_right(attribute) {
            return false;
        }
    }
    true
}

fn attribute_is_right(attribute: &Attribute<'_>) -> bool
    ensures { result ≡ spec.attribute_is_right (attribute_of attribute.now) }
{
    let Literal { quote, text } = attribute.value;
    is_some(attribute.space) && may_be_quoted(quote, text) && refers(text)
}

fn identifier_is_right(identifier: Identifier<'_>) -> bool
    ensures { result ≡ spec.identifier_is_right (identifier_of identifier.entry) }
{
    match identifier {
        Identifier::None => true,
        Identifier::System(before, between, system) => {
            is_some(before) && is_some(between) && is_system(system)
        }
        Identifier::Public(before, between, public, apart, system) => {
            is_some(before)
                && is_some(between)
                && is_public(public)
                && is_some(apart)
                && is_system(system)
        }
    }
}

// A system identifier (XML 1.0, 2.3, SystemLiteral).
fn is_system(literal: Literal<'_>) -> bool
    ensures { result ≡ spec.literal_is_right characters.is_character (literal_of literal.entry) }
{
    let Literal { quote, text } = literal;
    text.iter().all(|c| is_character(*c) && *c != quote)
}

// A public identifier (XML 1.0, 2.3, PubidLiteral).
fn is_public(literal: Literal<'_>) -> bool
    ensures { result ≡ spec.literal_is_right names.in_public_identifier (literal_of literal.entry) }
{
    let Literal { quote, text } = literal;
    text.iter().all(|c| in_public_identifier(*c) && *c != quote)
}

// The version, and maybe the encoding and whether the page stands alone (XML 1.0, 2.8).
fn is_in_order(attributes: &[Attribute<'_>]) -> bool
    ensures { result ≡ prolog.is_in_order (map attribute_of attributes.now) }
{
    match attributes {
        [] => false,
        [version, rest @ ..] => is_version(version) && may_follow_version(rest),
    }
}

fn may_follow_version(attributes: &[Attribute<'_>]) -> bool
    ensures { result ≡ prolog.may_follow_version (map attribute_of attributes.now) }
{
    match attributes {
        [] => true,
        [only] => is_encoding(only) || is_standalone(only),
        [encoding, standalone] => is_encoding(encoding) && is_standalone(standalone),
        [_, _, _, ..] => false,
    }
}

fn is_version(attribute: &Attribute<'_>) -> bool
    ensures { result ≡ prolog.is_version (attribute_of attribute.now) }
{
    is_word(attribute.name, b"version") && is_word(attribute.value.text, b"1.0")
}

fn is_encoding(attribute: &Attribute<'_>) -> bool
    ensures { result ≡ prolog.is_encoding (attribute_of attribute.now) }
{
    is_word(attribute.name, b"encoding") && is_word_in_any_case(attribute.value.text, b"UTF-8")
}

fn is_standalone(attribute: &Attribute<'_>) -> bool
    ensures { result ≡ prolog.is_standalone (attribute_of attribute.now) }
{
    let value = attribute.value.text;
    is_word(attribute.name, b"standalone") && (is_word(value, b"yes") || is_word(value, b"no"))
}
