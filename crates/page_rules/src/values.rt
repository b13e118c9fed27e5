//! Values of attributes.

ghost use Rattle.std.specs.Prelude.{◌≡◌, ◌++◌, IfOk, bytes_eq};
ghost use Rattle.std.specs.List.{list_all, list_any};
ghost use Rattle.std.specs.Str.{encode_utf8_all};
ghost use Rattle.std.specs.String.{string_bytes};
ghost use Rattle.dtd_model.specs.Table.{declared_of, kind_of, presence_of};
ghost use Rattle.page_model.specs.Attributes as spec;
ghost use Rattle.page_rules.specs.ValueTests.{IsWord, word_test};
ghost use Rattle.page_rules.specs.ValueTests as allowed;

use crate::words::{is_name, is_name_token, is_word};
use crate::{Class, split};
use dtd_model::{AttrKind, AttrRule, Need};
use std::alloc::Global;
use text_base::{Bytes, NoMemory};

/// What a word of a value has to be.
#[derive(Clone, Copy)]
pub enum WordTest<'d> {
    /// A name.
    Name,
    /// A name token.
    Token,
    /// One of these.
    OneOf(&'d Vec<Bytes>),
}

// The first word, and what stands behind it.
fn next_word(value: &[char]) -> Option<(&[char], &[char])>
    ensures { IsWord value.now result }
{
    let (_, begin) = split(value, Class::Blank);
    if begin.is_empty() {
        return None;
    }
    Some(split(begin, Class::NotBlank))
}

fn passes(test: WordTest<'_>, word: &[char]) -> bool
    ensures { result ≡ word_test test.entry word.now }
{
    match test {
        WordTest::Name => is_name(word),
        WordTest::Token => is_name_token(word),
        WordTest::OneOf(tokens) => is_one_of(word, tokens),
    }
}

/// Whether the word is one of the tokens.
pub fn is_one_of(word: &[char], tokens: &Vec<Bytes>) -> bool
    ensures { result ≡ list_any (bytes_eq word.now) tokens.now.items }
{
    for token in tokens {
        if is_word(word, token.as_slice()) {
            return true;
        }
    }
    false
}

// Whether the value is one such word, with white space round it.
fn is_one_word(test: WordTest<'_>, value: &[char]) -> bool
    ensures { result ≡ spec.is_one_word (word_test test.entry) (spec.words_of value.now) }
{
    match next_word(value) {
        None => false,
        Some((word, rest)) => match next_word(rest) {
            None => passes(test, word),
            Some(_) => false,
        },
    }
}

// Whether the value is such words, at least one.
fn are_words(test: WordTest<'_>, value: &[char]) -> bool
    ensures { result ≡ spec.are_words (word_test test.entry) (spec.words_of value.now) }
{
    match next_word(value) {
        None => false,
        Some((word, rest)) => passes(test, word) && all_words(test, rest),
    }
}

fn all_words(test: WordTest<'_>, value: &[char]) -> bool
    ensures { result ≡ list_all (word_test test.entry) (spec.words_of value.now) }
{
    let mut left = value;
    while let Some((word, rest)) = next_word(left) {
        if !passes(test, word) {
            return false;
        }
        left = rest;
    }
    true
}

/// Whether the value is one that the declaration of its attribute allows (XML 1.0, 3.3), references
/// aside.
pub fn has_value(alloc: Global, rule: &AttrRule, value: &[char]) -> Result<bool, NoMemory>
    ensures { IfOk result (λ fit. fit ≡ allowed.has_value (declared_of rule.now) value.now) }
{
    if has_kind(&rule.kind, value) {
        has_fixed(alloc, &rule.need, value)
    } else {
        Ok(false)
    }
}

/// Whether the value is of the type (XML 1.0, 3.3.1).
pub fn has_kind(kind: &AttrKind, value: &[char]) -> bool
    ensures { result ≡ spec.has_kind (kind_of kind.now) value.now }
{
    match kind {
        AttrKind::Cdata => true,
        AttrKind::Id | AttrKind::Idref => is_one_word(WordTest::Name, value),
        AttrKind::Idrefs => are_words(WordTest::Name, value),
        AttrKind::Nmtoken => is_one_word(WordTest::Token, value),
        AttrKind::Nmtokens => are_words(WordTest::Token, value),
        AttrKind::Choice(tokens) => is_one_word(WordTest::OneOf(tokens), value),
    }
}

/// Whether the value is the fixed one, where one is declared (XML 1.0, 3.3.2).
pub fn has_fixed(alloc: Global, need: &Need, value: &[char]) -> Result<bool, NoMemory>
    ensures { IfOk result (λ is. is ≡ spec.has_fixed (presence_of need.now) value.now) }
{
    match need {
        Need::Fixed(wanted) => is_encoded(alloc, wanted, value),
        Need::Implied | Need::Required | Need::Default => Ok(true),
    }
}

fn is_encoded(alloc: Global, wanted: &Bytes, value: &[char]) -> Result<bool, NoMemory>
    ensures { IfOk result (λ is. is ≡ bytes_eq wanted.now (encode_utf8_all value.now)) }
{
    let bytes = encoded(alloc, value)?;
    Ok(wanted.as_slice() == bytes.as_bytes())
}

// The UTF-8 of the characters.
fn encoded(alloc: Global, value: &[char]) -> Result<String, NoMemory>
    ensures { IfOk result (λ text. string_bytes text ≡ encode_utf8_all value.now) }
{
    let mut text = String::new(alloc);
    for c in value {
        text.push(*c)?;
    }
    Ok(text)
}
