//! References.

ghost use Rattle.std.specs.Prelude.{◌≡◌, ◌≤◌, ◌<◌, ◌&&◌, bytes_eq};
ghost use Rattle.std.specs.Char as chars;
ghost use Rattle.std.specs.List.{list_all, list_any};
ghost use Rattle.dtd_model.specs.TableOf.{table_of};
ghost use Rattle.xml_text.specs.Characters as characters;
ghost use Rattle.dtd_model.specs.References as spec;
ghost use Rattle.page_model.specs.Parts as parts;
ghost use Rattle.page_rules.specs.Views as views;

use crate::numbers::{digit_value, is_character_code};
use crate::words::{is_name, is_some, is_word};
use crate::{Class, Reference, reference_of, split};
use dtd_index::IndexedDtd;

/// Whether the reference is one of XML (XML 1.0, 4.1): a number is that of a character.
pub fn is_reference(reference: Reference<'_>) -> bool
    ensures { result ≡ spec.is_reference (views.reference_of reference.entry) }
{
    match reference {
        Reference::Decimal(digits) => {
            is_some(digits) && are_digits(digits) && is_number(10, digits)
        }
        Reference::Hexadecimal(digits) => {
            is_some(digits) && are_hexadecimal(digits) && is_number(16, digits)
        }
        Reference::Entity(name) => is_name(name),
    }
}

fn are_digits(cs: &[char]) -> bool
    ensures { result ≡ list_all chars.is_ascii_digit cs.now }
{
    cs.iter().all(|c| c.is_ascii_digit())
}

fn are_hexadecimal(cs: &[char]) -> bool
    ensures { result ≡ list_all chars.is_ascii_hexdigit cs.now }
{
    cs.iter().all(|c| c.is_ascii_hexdigit())
}

// Whether the digits are the number of a character of XML.
fn is_number(base: u32, digits: &[char]) -> bool
    requires some { 1 ≤ base }
    requires small { base ≤ 16 }
    ensures { result ≡ characters.is_character (spec.number_written base 0 digits.now) }
{
    let mut number = 0u32;
    for c in digits {
        number = number * base + digit_value(*c);
        if number > 0x0010_FFFF {
            return false;
        }
    }
    is_character_code(number)
}

/// Whether each `&` begins a reference of XML (XML 1.0, 2.3, AttValue).
pub fn refers(cs: &[char]) -> bool
    ensures { result ≡ parts.refers_by spec.is_reference cs.now }
{
    let mut left = cs;
    while let Some((c, rest)) = left.split_first() {
        if *c == '&' && !begins_reference(rest) {
            return false;
        }
        left = rest;
    }
    true
}

// Whether a reference of XML stands behind `&`.
fn begins_reference(cs: &[char]) -> bool
    ensures { result ≡ (parts.has_semicolon cs.now && spec.is_reference
        (parts.reference_of (parts.up_to_semicolon cs.now))) }
{
    let (body, end) = split(cs, Class::Other(';'));
    is_ended(body, end)
}

fn is_ended(body: &[char], end: &[char]) -> bool
    ensures { result ≡ (spec.is_some end.now && spec.is_reference (parts.reference_of body.now)) }
{
    is_some(end) && is_reference(reference_of(body))
}

/// Whether each `&` begins a reference to a known entity, or to a character.
pub fn refers_to_known(indexed: &IndexedDtd<'_>, cs: &[char]) -> bool
    ensures { result ≡ parts.refers_by (spec.is_known (table_of indexed.now.dtd.now).entities)
        cs.now }
{
    let mut left = cs;
    while let Some((c, rest)) = left.split_first() {
        if *c == '&' && !begins_known(indexed, rest) {
            return false;
        }
        left = rest;
    }
    true
}

fn begins_known(indexed: &IndexedDtd<'_>, cs: &[char]) -> bool
    ensures { result ≡ (parts.has_semicolon cs.now && spec.is_known
        (table_of indexed.now.dtd.now).entities (parts.reference_of (parts.up_to_semicolon cs.now))) }
{
    let (body, end) = split(cs, Class::Other(';'));
    is_ended_known(indexed, body, end)
}

fn is_ended_known(indexed: &IndexedDtd<'_>, body: &[char], end: &[char]) -> bool
    ensures { result ≡ (spec.is_some end.now && spec.is_known
        (table_of indexed.now.dtd.now).entities (parts.reference_of body.now)) }
{
    is_some(end) && is_known(indexed, reference_of(body))
}

/// Whether the reference is to a character, or to an entity that is declared or one of the five
/// of XML (XML 1.0, 4.6).
pub fn is_known(indexed: &IndexedDtd<'_>, reference: Reference<'_>) -> bool
    ensures { result ≡ spec.is_known (table_of indexed.now.dtd.now).entities
        (views.reference_of reference.entry) }
{
    match reference {
        Reference::Decimal(_) | Reference::Hexadecimal(_) => true,
        Reference::Entity(name) => is_predefined(name) || indexed.has_entity(name),
    }
}

/// One of the five entities that need no declaration (XML 1.0, 4.6).
pub fn is_predefined(name: &[char]) -> bool
    ensures { result ≡ list_any (bytes_eq name.now) spec.known_entities }
{
    is_word(name, b"amp")
        || (is_word(name, b"lt")
            || (is_word(name, b"gt") || (is_word(name, b"quot") || is_word(name, b"apos"))))
}
