//! What is open in a value.

ghost use Rattle.std.specs.Prelude.{◌≡◌, IfOk};
ghost use Rattle.dtd_model.specs.Table.{declared_of, kind_of};
ghost use Rattle.dtd_model.specs.TableOf.{table_of};
ghost use Rattle.page_endings.specs.Ending as ending;
ghost use Rattle.page_steps.specs.ValueSteps as steps;
ghost use Rattle.open_pieces.specs.Views.{plain_value};

use crate::beginnings::{begins, begins_lowercased};
use crate::fixed::fixed_can_end;
use crate::names::{any_begins, reference_can_end};
use dtd_index::IndexedDtd;
use dtd_model::{AttrKind, AttrRule};
use open_pieces::OpenValue;
use page_rules::{is_one_of, is_some, is_word};
use std::alloc::Global;
use text_base::NoMemory;
use value_stepping::value_start;

fn is_chosen(kind: &AttrKind, word: &[char]) -> bool
    ensures { result ≡ steps.is_chosen (kind_of kind.now) word.now }
{
    match kind {
        AttrKind::Choice(tokens) => is_one_of(word, tokens),
        AttrKind::Cdata
        | AttrKind::Id
        | AttrKind::Idref
        | AttrKind::Idrefs
        | AttrKind::Nmtoken
        | AttrKind::Nmtokens => false,
    }
}

fn choice_begins(kind: &AttrKind, word: &[char]) -> bool
    ensures { result ≡ ending.some_name_begins (ending.choices (kind_of kind.now)) word.now }
{
    match kind {
        AttrKind::Choice(tokens) => any_begins(tokens, word),
        AttrKind::Cdata
        | AttrKind::Id
        | AttrKind::Idref
        | AttrKind::Idrefs
        | AttrKind::Nmtoken
        | AttrKind::Nmtokens => false,
    }
}

fn choice_can_end(kind: &AttrKind, word: &[char], spaced: bool) -> bool
    ensures { result ≡ ending.choice_can_end (kind_of kind.now) word.now spaced }
{
    if spaced {
        is_some(word) && is_chosen(kind, word)
    } else {
        choice_begins(kind, word)
    }
}

/// Whether a value can be written to its end in these quotes, by how its attribute is declared.
/// Takes memory for a fixed value alone.
pub fn value_can_end(
    alloc: Global,
    indexed: &IndexedDtd<'_>,
    rule: &AttrRule,
    quote: char,
    value: &OpenValue,
) -> Result<bool, NoMemory>
    ensures { IfOk result (λ is. is
        ≡ ending.value_can_end (table_of indexed.now.dtd.now).entities (declared_of rule.now) quote
        (plain_value value.now)) }
{
    match value {
        OpenValue::Text => Ok(true),
        OpenValue::Reference(reference) => {
            Ok(reference_can_end(&indexed.dtd.entities, reference))
        }
        OpenValue::Fixed(text) => fixed_can_end(alloc, indexed, rule, quote, text),
        OpenValue::Choice(word, spaced) => {
            Ok(choice_can_end(&rule.kind, word.as_slice(), *spaced))
        }
        OpenValue::Words(_, _) => Ok(true),
    }
}

/// Whether some value of the attribute can be written, in one of the two quotes.
pub fn has_value(alloc: Global, indexed: &IndexedDtd<'_>, rule: &AttrRule) -> Result<bool, NoMemory>
    ensures { IfOk result (λ is. is
        ≡ ending.has_value (table_of indexed.now.dtd.now).entities (declared_of rule.now)) }
{
    let start = value_start(alloc, rule);
    if value_can_end(alloc, indexed, rule, '"', &start)? {
        return Ok(true);
    }
    value_can_end(alloc, indexed, rule, '\'', &start)
}

fn word_begins(name: &[char], value: &[char]) -> bool
    ensures { result ≡ ending.word_begins name.now value.now }
{
    if is_word(name, b"version") {
        return begins(b"1.0", value);
    }
    if is_word(name, b"encoding") {
        return begins_lowercased(b"utf-8", value);
    }
    begins(b"yes", value) || begins(b"no", value)
}

/// Whether a value of this name can be written to its end in the XML declaration (XML 1.0, 2.8).
pub fn word_can_end(name: &[char], value: &OpenValue) -> bool
    ensures { result ≡ ending.word_can_end name.now (plain_value value.now) }
{
    match value {
        OpenValue::Fixed(text) => word_begins(name, text.as_slice()),
        OpenValue::Text
        | OpenValue::Reference(_)
        | OpenValue::Choice(_, _)
        | OpenValue::Words(_, _) => false,
    }
}
