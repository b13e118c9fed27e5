//! What stands at the head of a list of tokens.

ghost use Rattle.std.specs.Prelude.{◌≡◌, ℕ, List, Option};
ghost use Rattle.dtd_texts.specs.Tokens as spec;
ghost use Rattle.dtd_declarations.specs.TokenViews.{token_of, tokens_of, maybe_text, maybe_tokens, found};

use crate::token::Token;

/// A text at the head of a list of tokens, and the tokens behind it.
pub type Found<'a, 'b> = (&'a [u8], &'b [Token<'a>]);

fn is_gap(token: &Token<'_>) -> bool
    ensures { result ≡ spec.is_gap (token_of token.now) }
{
    match token {
        Token::Gap => true,
        _ => false,
    }
}

/// Whether the token is a percent sign.
pub fn is_percent_sign(token: &Token<'_>) -> bool
    ensures { result ≡ spec.is_percent (token_of token.now) }
{
    match token {
        Token::Percent => true,
        _ => false,
    }
}

fn word_of<'a>(token: &Token<'a>) -> Option<&'a [u8]>
    ensures { maybe_text result ≡ spec.word_of (token_of token.now) }
{
    match token {
        Token::Word(word) => Some(word),
        _ => None,
    }
}

fn literal_of<'a>(token: &Token<'a>) -> Option<&'a [u8]>
    ensures { maybe_text result ≡ spec.literal_of (token_of token.now) }
{
    match token {
        Token::Literal(text) => Some(text),
        _ => None,
    }
}

/// The tokens behind white space.
pub fn behind_gap<'a, 'b>(tokens: &'b [Token<'a>]) -> Option<&'b [Token<'a>]>
    ensures { maybe_tokens result ≡ spec.behind spec.is_gap (tokens_of tokens.now) }
{
    match tokens.split_first() {
        Some((first, others)) if is_gap(first) => Some(others),
        Some(_) => None,
        None => None,
    }
}

/// A word at the head.
pub fn first_word<'a, 'b>(tokens: &'b [Token<'a>]) -> Option<Found<'a, 'b>>
    ensures { found result ≡ spec.first_word (tokens_of tokens.now) }
{
    match tokens.split_first() {
        Some((first, others)) => match word_of(first) {
            Some(word) => Some((word, others)),
            None => None,
        },
        None => None,
    }
}

/// White space and a word at the head.
pub fn next_word<'a, 'b>(tokens: &'b [Token<'a>]) -> Option<Found<'a, 'b>>
    ensures { found result ≡ spec.next_word (tokens_of tokens.now) }
{
    match behind_gap(tokens) {
        Some(others) => first_word(others),
        None => None,
    }
}

/// The tokens behind white space, or all where none stands at the head.
pub fn behind_maybe_gap<'a, 'b>(tokens: &'b [Token<'a>]) -> &'b [Token<'a>]
    ensures { tokens_of result.now ≡ spec.behind_maybe spec.is_gap (tokens_of tokens.now) }
{
    let found = behind_gap(tokens);
    found.unwrap_or(tokens)
}

/// Whether there is no token.
pub fn are_none(tokens: &[Token<'_>]) -> bool
    ensures { result ≡ spec.are_none (tokens_of tokens.now) }
{
    match tokens.split_first() {
        Some(_) => false,
        None => true,
    }
}

/// Whether nothing stands there but maybe white space.
pub fn is_end(tokens: &[Token<'_>]) -> bool
    ensures { result ≡ spec.is_end (tokens_of tokens.now) }
{
    are_none(behind_maybe_gap(tokens))
}

/// A literal at the head.
pub fn first_literal<'a, 'b>(tokens: &'b [Token<'a>]) -> Option<Found<'a, 'b>>
    ensures { found result ≡ spec.first_literal (tokens_of tokens.now) }
{
    match tokens.split_first() {
        Some((first, others)) => match literal_of(first) {
            Some(text) => Some((text, others)),
            None => None,
        },
        None => None,
    }
}

/// White space and a literal at the head.
pub fn next_literal<'a, 'b>(tokens: &'b [Token<'a>]) -> Option<Found<'a, 'b>>
    ensures { found result ≡ spec.next_literal (tokens_of tokens.now) }
{
    match behind_gap(tokens) {
        Some(others) => first_literal(others),
        None => None,
    }
}

fn is_equals_sign(token: &Token<'_>) -> bool
    ensures { result ≡ spec.is_equals (token_of token.now) }
{
    match token {
        Token::Equals => true,
        _ => false,
    }
}

/// The tokens behind an equals sign.
pub fn behind_equals<'a, 'b>(tokens: &'b [Token<'a>]) -> Option<&'b [Token<'a>]>
    ensures { maybe_tokens result ≡ spec.behind spec.is_equals (tokens_of tokens.now) }
{
    match tokens.split_first() {
        Some((first, others)) if is_equals_sign(first) => Some(others),
        Some(_) => None,
        None => None,
    }
}
