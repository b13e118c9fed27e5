//! References.

ghost use Rattle.std.specs.Prelude.{◌≡◌, IfOk, []};
ghost use Rattle.dtd_model.specs.TableOf.{table_of};
ghost use Rattle.page_steps.specs.ReferenceSteps as steps;
ghost use Rattle.page_model.specs.OpenValues as value;
ghost use Rattle.open_pieces.specs.Views.{plain_reference};
ghost use Rattle.reference_stepping.specs.Views.{plain_next};

use crate::numbers::with_digit;
use dtd_index::IndexedDtd;
use open_pieces::{Characters, OpenReference};
use page_rules::{begins_name, in_name, is_character_code, is_name, is_predefined};
use std::alloc::Global;
use text_base::NoMemory;

/// One character more in a reference, behind its `&` and before its `;` (XML 1.0, 4.1); none where
/// no reference goes on so.
pub fn reference_step(
    alloc: Global,
    reference: &OpenReference,
    c: char,
) -> Result<Option<OpenReference>, NoMemory>
    ensures { IfOk result
        (λ next. plain_next next ≡ steps.reference_step (plain_reference reference.now) c) }
{
    match reference {
        OpenReference::Entity(name) => entity_step(alloc, name, c),
        OpenReference::Number => Ok(number_step(c)),
        OpenReference::Decimal(number) => Ok(decimal_step(*number, c)),
        OpenReference::HexadecimalBegin => Ok(hexadecimal_step(0, c)),
        OpenReference::Hexadecimal(number) => Ok(hexadecimal_step(*number, c)),
    }
}

fn entity_step(alloc: Global, name: &Characters, c: char) -> Result<Option<OpenReference>, NoMemory>
    ensures { IfOk result (λ next. plain_next next ≡ steps.entity_step name.now c) }
{
    match name.as_slice() {
        [] => entity_begin(alloc, c),
        [_, ..] if in_name(c) => Ok(Some(OpenReference::Entity(name.with(alloc, c)?))),
        [_, ..] => Ok(None),
    }
}

// The first character behind `&`.
fn entity_begin(alloc: Global, c: char) -> Result<Option<OpenReference>, NoMemory>
    ensures { IfOk result (λ next. plain_next next ≡ steps.entity_step [] c) }
{
    if c == '#' {
        return Ok(Some(OpenReference::Number));
    }
    if !begins_name(c) {
        return Ok(None);
    }
    let name = Characters::new(alloc).with(alloc, c)?;
    Ok(Some(OpenReference::Entity(name)))
}

fn number_step(c: char) -> Option<OpenReference>
    ensures { plain_next result ≡ steps.reference_step value.at_number c }
{
    if c == 'x' {
        Some(OpenReference::HexadecimalBegin)
    } else {
        decimal_step(0, c)
    }
}

fn decimal_step(number: u32, c: char) -> Option<OpenReference>
    ensures { plain_next result ≡ steps.decimal_step number c }
{
    if c.is_ascii_digit() {
        Some(OpenReference::Decimal(with_digit(10, number, c)))
    } else {
        None
    }
}

fn hexadecimal_step(number: u32, c: char) -> Option<OpenReference>
    ensures { plain_next result ≡ steps.hexadecimal_step number c }
{
    if c.is_ascii_hexdigit() {
        Some(OpenReference::Hexadecimal(with_digit(16, number, c)))
    } else {
        None
    }
}

/// Whether the reference may end there: it names a character, or an entity that is declared or one
/// of the five of XML.
pub fn reference_good(indexed: &IndexedDtd<'_>, reference: &OpenReference) -> bool
    ensures { result ≡ steps.reference_good (table_of indexed.now.dtd.now).entities
        (plain_reference reference.now) }
{
    match reference {
        OpenReference::Entity(name) => entity_good(indexed, name.as_slice()),
        OpenReference::Number | OpenReference::HexadecimalBegin => false,
        OpenReference::Decimal(number) | OpenReference::Hexadecimal(number) => {
            is_character_code(*number)
        }
    }
}

fn entity_good(indexed: &IndexedDtd<'_>, name: &[char]) -> bool
    ensures { result ≡ steps.reference_good (table_of indexed.now.dtd.now).entities
        (value.in_entity name.now) }
{
    is_name(name) && (is_predefined(name) || indexed.has_entity(name))
}
