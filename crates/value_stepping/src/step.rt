//! One character more in a value.

ghost use Rattle.std.specs.Prelude.{◌≡◌, IfOk, Some};
ghost use Rattle.dtd_model.specs.Table.{declared_of, kind_of};
ghost use Rattle.dtd_model.specs.TableOf.{table_of};
ghost use Rattle.page_steps.specs.ValueSteps as steps;
ghost use Rattle.open_pieces.specs.Views.{plain_reference, plain_value};
ghost use Rattle.value_stepping.specs.Views.{plain_next, reference_ended};

use crate::words::{choice_more, words_more};
use dtd_index::IndexedDtd;
use dtd_model::{AttrKind, AttrRule};
use open_pieces::{Characters, OpenReference, OpenValue};
use reference_stepping::{reference_good, reference_step};
use std::alloc::Global;
use text_base::NoMemory;
use xml_text::is_character;

/// Whether the character may stand in a value: each of XML but `<` (XML 1.0, 2.3, AttValue).
pub fn may_stand(c: char) -> bool
    ensures { result ≡ steps.may_stand c }
{
    is_character(c) && c != '<'
}

/// One character more in the quotes of a value, by how its attribute is declared (XML 1.0, 3.3);
/// none where no value goes on so.
pub fn value_step(
    alloc: Global,
    indexed: &IndexedDtd<'_>,
    rule: &AttrRule,
    value: &OpenValue,
    c: char,
) -> Result<Option<OpenValue>, NoMemory>
    ensures { IfOk result (λ next. plain_next next
        ≡ steps.value_step (table_of indexed.now.dtd.now).entities (declared_of rule.now)
        (plain_value value.now) c) }
{
    if may_stand(c) {
        kept_step(alloc, indexed, &rule.kind, value, c)
    } else {
        Ok(None)
    }
}

fn kept_step(
    alloc: Global,
    indexed: &IndexedDtd<'_>,
    kind: &AttrKind,
    value: &OpenValue,
    c: char,
) -> Result<Option<OpenValue>, NoMemory>
    ensures { IfOk result (λ next. plain_next next
        ≡ steps.kept_step (table_of indexed.now.dtd.now).entities (kind_of kind.now)
        (plain_value value.now) c) }
{
    match value {
        OpenValue::Text => Ok(Some(text_step(alloc, c))),
        OpenValue::Reference(reference) => semicolon_step(alloc, indexed, reference, c),
        OpenValue::Fixed(text) => Ok(Some(OpenValue::Fixed(text.with(alloc, c)?))),
        OpenValue::Choice(word, is_spaced) => choice_more(alloc, word, *is_spaced, c),
        OpenValue::Words(is_inside, is_one) => Ok(words_more(kind, *is_inside, *is_one, c)),
    }
}

fn text_step(alloc: Global, c: char) -> OpenValue
    ensures { Some (plain_value result) ≡ steps.text_step c }
{
    if c == '&' {
        OpenValue::Reference(OpenReference::Entity(Characters::new(alloc)))
    } else {
        OpenValue::Text
    }
}

fn semicolon_step(
    alloc: Global,
    indexed: &IndexedDtd<'_>,
    reference: &OpenReference,
    c: char,
) -> Result<Option<OpenValue>, NoMemory>
    ensures { IfOk result (λ next. plain_next next
        ≡ steps.semicolon_step (table_of indexed.now.dtd.now).entities
        (plain_reference reference.now) c) }
{
    if c == ';' {
        return Ok(reference_end(indexed, reference));
    }
    match reference_step(alloc, reference, c)? {
        Some(more) => Ok(Some(OpenValue::Reference(more))),
        None => Ok(None),
    }
}

// What is open behind the `;` of a reference.
fn reference_end(indexed: &IndexedDtd<'_>, reference: &OpenReference) -> Option<OpenValue>
    ensures { plain_next result
        ≡ reference_ended (table_of indexed.now.dtd.now).entities (plain_reference reference.now) }
{
    if reference_good(indexed, reference) {
        Some(OpenValue::Text)
    } else {
        None
    }
}
