//! Values of words.

ghost use Rattle.std.specs.Prelude.{◌≡◌, IfOk};
ghost use Rattle.dtd_model.specs.Table.{kind_of};
ghost use Rattle.page_steps.specs.ValueSteps as steps;
ghost use Rattle.value_stepping.specs.Views.{plain_next, choice_next, words_next};

use dtd_model::AttrKind;
use open_pieces::{Characters, OpenValue};
use page_rules::{begins_name, in_name, is_blank, is_some};
use std::alloc::Global;
use text_base::NoMemory;

// Whether the type has names, and not name tokens.
fn has_names(kind: &AttrKind) -> bool
    ensures { result ≡ steps.has_names (kind_of kind.now) }
{
    match kind {
        AttrKind::Id | AttrKind::Idref | AttrKind::Idrefs => true,
        AttrKind::Cdata | AttrKind::Nmtoken | AttrKind::Nmtokens | AttrKind::Choice(_) => false,
    }
}

// Whether a value of the type has many words.
fn has_many(kind: &AttrKind) -> bool
    ensures { result ≡ steps.has_many (kind_of kind.now) }
{
    match kind {
        AttrKind::Idrefs | AttrKind::Nmtokens => true,
        AttrKind::Cdata
        | AttrKind::Id
        | AttrKind::Idref
        | AttrKind::Nmtoken
        | AttrKind::Choice(_) => false,
    }
}

fn begins_word(kind: &AttrKind, c: char) -> bool
    ensures { result ≡ steps.begins_word (kind_of kind.now) c }
{
    if has_names(kind) {
        begins_name(c)
    } else {
        in_name(c)
    }
}

fn words_step(kind: &AttrKind, is_inside: bool, is_one: bool, c: char) -> Option<OpenValue>
    ensures { plain_next result ≡ steps.words_step (kind_of kind.now) is_inside is_one c }
{
    let goes_on = if is_inside {
        in_name(c)
    } else {
        (!is_one || has_many(kind)) && begins_word(kind, c)
    };
    if goes_on {
        Some(OpenValue::Words(true, is_one))
    } else {
        None
    }
}

/// One character more in a value of names or of name tokens.
pub fn words_more(kind: &AttrKind, is_inside: bool, is_one: bool, c: char) -> Option<OpenValue>
    ensures { plain_next result ≡ words_next (kind_of kind.now) is_inside is_one c }
{
    if is_blank(c) {
        Some(OpenValue::Words(false, is_inside || is_one))
    } else {
        words_step(kind, is_inside, is_one, c)
    }
}

fn choice_step(
    alloc: Global,
    word: &Characters,
    is_spaced: bool,
    c: char,
) -> Result<Option<OpenValue>, NoMemory>
    ensures { IfOk result (λ next. plain_next next ≡ steps.choice_step word.now is_spaced c) }
{
    if !is_spaced && in_name(c) {
        Ok(Some(OpenValue::Choice(word.with(alloc, c)?, false)))
    } else {
        Ok(None)
    }
}

/// One character more in a value of one word of a choice.
pub fn choice_more(
    alloc: Global,
    word: &Characters,
    is_spaced: bool,
    c: char,
) -> Result<Option<OpenValue>, NoMemory>
    ensures { IfOk result (λ next. plain_next next ≡ choice_next word.now is_spaced c) }
{
    if is_blank(c) {
        let is_behind = is_spaced || is_some(word.as_slice());
        Ok(Some(OpenValue::Choice(word.copy(alloc)?, is_behind)))
    } else {
        choice_step(alloc, word, is_spaced, c)
    }
}
