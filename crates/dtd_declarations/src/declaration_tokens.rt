//! The text declaration at the head of a file (XML 1.0, 4.3.1).

ghost use Rattle.std.specs.Prelude.{◌≡◌, ◌<◌, ◌≤◌, ◌+◌, drop, length, IfOk, codes};
ghost use Rattle.dtd_texts.specs.Tokens as spec;
ghost use Rattle.dtd_declarations.specs.TokenViews.{token_of, tokens_of, found};

use crate::heads::{
    Found, behind_equals, behind_maybe_gap, first_literal, first_word, is_end, next_word,
};
use crate::scan::{begins, behind, front, same_letters};
use crate::token::Token;
use crate::tokens::tokens_of;
use std::alloc::Global;
use text_base::NoMemory;

// An equals sign, with white space round it, and a literal.
fn set_to<'a, 'b>(tokens: &'b [Token<'a>]) -> Option<Found<'a, 'b>>
    ensures { found result ≡ spec.set_to (tokens_of tokens.now) }
{
    match behind_equals(behind_maybe_gap(tokens)) {
        Some(others) => first_literal(behind_maybe_gap(others)),
        None => None,
    }
}

// White space, this name, an equals sign and a literal.
#[tactic(auto, unfolding(dtd_texts::specs::Tokens::setting))]
fn setting<'a, 'b>(name: &[u8], tokens: &'b [Token<'a>]) -> Option<Found<'a, 'b>>
    ensures { found result ≡ spec.setting name.now (tokens_of tokens.now) }
{
    match next_word(tokens) {
        Some((word, others)) => { if word == name { set_to(others) } else { None } }
        None => None,
    }
}

// The encoding UTF-8, and the end.
fn is_encoding(tokens: &[Token<'_>]) -> bool
    ensures { result ≡ spec.is_encoding (spec.setting (codes "encoding") (tokens_of tokens.now)) }
{
    match setting(b"encoding", tokens) {
        Some((value, others)) => same_letters(value, b"UTF-8") && is_end(others),
        None => false,
    }
}

// What stands behind `xml`.
fn is_version(tokens: &[Token<'_>]) -> bool
    ensures { result ≡ spec.is_version (spec.setting (codes "version") (tokens_of tokens.now))
        (tokens_of tokens.now) }
{
    match setting(b"version", tokens) {
        Some((value, others)) => value == b"1.0".as_slice()
            && (is_end(others) || is_encoding(others)),
        None => is_encoding(tokens),
    }
}

#[tactic(auto, unfolding(dtd_texts::specs::Tokens::is_declaration))]
fn is_declaration(tokens: &[Token<'_>]) -> bool
    ensures { result ≡ spec.is_declaration (tokens_of tokens.now) }
{
    match first_word(tokens) {
        Some((word, others)) => word == b"xml".as_slice() && is_version(others),
        None => false,
    }
}

// How many bytes stand before the first `?>`; all where there is none.
#[tactic(auto, unfolding(dtd_texts::specs::Tokens::before_end))]
fn before_end(bytes: &[u8]) -> usize
    ensures value { result ≡ spec.before_end bytes.now }
    ensures within { result ≤ length bytes.now }
{
    let mut n = 0;
    let mut rest = bytes;
    while let Some((_, others)) = rest.split_first() {
        if begins(rest, b"?>") {
            return n;
        }
        n += 1;
        rest = others;
    }
    n
}

// How long the text declaration at the head is; 0 where none stands there.
#[tactic(auto, unfolding(dtd_texts::specs::Tokens::declaration_length))]
fn declaration_length(alloc: Global, bytes: &[u8]) -> Result<usize, NoMemory>
    ensures { IfOk result (λ n. n ≡ spec.declaration_length bytes.now) }
{
    if !begins(bytes, b"<?xml") {
        return Ok(0);
    }
    let n = before_end(bytes);
    if !begins(behind(bytes, n), b"?>") {
        return Ok(0);
    }
    let tokens = tokens_of(alloc, behind(front(bytes, n), 2))?;
    if is_declaration(tokens.as_slice()) {
        Ok(n + 2)
    } else {
        Ok(0)
    }
}

fn behind_mark(bytes: &[u8]) -> &[u8]
    ensures { result.now ≡ spec.behind_mark bytes.now }
{
    if begins(bytes, &[0xEF, 0xBB, 0xBF]) {
        behind(bytes, 3)
    } else {
        bytes
    }
}

/// The bytes behind a byte order mark and a text declaration, where they stand at the head.
pub fn behind_declaration(alloc: Global, bytes: &[u8]) -> Result<&[u8], NoMemory>
    ensures { IfOk result (λ text. text.now ≡ spec.behind_declaration bytes.now) }
{
    let text = behind_mark(bytes);
    let n = declaration_length(alloc, text)?;
    Ok(behind(text, n))
}
