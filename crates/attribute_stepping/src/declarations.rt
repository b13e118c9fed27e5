//! The attributes of the XML declaration (XML 1.0, 2.8).

ghost use Rattle.std.specs.Prelude.{◌≡◌, IfOk};
ghost use Rattle.page_steps.specs.TagSteps as steps;
ghost use Rattle.open_pieces.specs.Views.{plain_value};
ghost use Rattle.value_stepping.specs.Views.{plain_next};

use open_pieces::{NameList, OpenValue};
use page_rules::{is_word, is_word_in_any_case};
use std::alloc::Global;
use text_base::NoMemory;
use value_stepping::may_stand;

/// Whether this may stand behind attributes of these names: the version, maybe the encoding and
/// whether the page stands alone, in this order.
pub fn may_be_word(names: &NameList, name: &[char]) -> bool
    ensures { result ≡ steps.may_be_word names.now name.now }
{
    match names.as_slice() {
        [] => is_word(name, b"version"),
        [_] => is_word(name, b"encoding") || is_word(name, b"standalone"),
        [_, second] => is_word(second.as_slice(), b"encoding") && is_word(name, b"standalone"),
        [_, _, _, ..] => false,
    }
}

fn is_word_value(name: &[char], value: &[char]) -> bool
    ensures { result ≡ steps.is_word_value name.now value.now }
{
    if is_word(name, b"version") {
        return is_word(value, b"1.0");
    }
    if is_word(name, b"encoding") {
        is_word_in_any_case(value, b"UTF-8")
    } else {
        is_word(value, b"yes") || is_word(value, b"no")
    }
}

/// One character more in a value.
pub fn word_step(alloc: Global, value: &OpenValue, c: char) -> Result<Option<OpenValue>, NoMemory>
    ensures { IfOk result (λ next. plain_next next ≡ steps.word_step (plain_value value.now) c) }
{
    match value {
        OpenValue::Fixed(text) if may_stand(c) => Ok(Some(OpenValue::Fixed(text.with(alloc, c)?))),
        OpenValue::Fixed(_)
        | OpenValue::Text
        | OpenValue::Reference(_)
        | OpenValue::Choice(_, _)
        | OpenValue::Words(_, _) => Ok(None),
    }
}

/// Whether a value may end there.
pub fn word_good(name: &[char], value: &OpenValue) -> bool
    ensures { result ≡ steps.word_good name.now (plain_value value.now) }
{
    match value {
        OpenValue::Fixed(text) => is_word_value(name, text.as_slice()),
        OpenValue::Text
        | OpenValue::Reference(_)
        | OpenValue::Choice(_, _)
        | OpenValue::Words(_, _) => false,
    }
}
