//! The text of a declaration, cut into tokens.

ghost use Rattle.std.specs.Prelude.{◌≡◌, ◌<◌, ◌≤◌, ◌∷◌, ℕ, List, length, IfOk};
ghost use Rattle.dtd_texts.specs.Tokens as spec;
ghost use Rattle.dtd_declarations.specs.TokenViews.{token_of, tokens_of};

use crate::scan::{behind, blanks_length, front, is_quote, length_before, name_bytes_length};
use crate::token::Token;
use std::alloc::Global;
use text_base::NoMemory;
use xml_text::{in_name, is_blank};

// The sign that a byte is.
fn sign(byte: u8) -> Token<'static>
    ensures { token_of result ≡ spec.sign_of byte }
{
    match byte {
        b'(' => Token::Opening,
        b')' => Token::Closing,
        b'|' => Token::Bar,
        b',' => Token::Comma,
        b'?' => Token::Question,
        b'*' => Token::Star,
        b'+' => Token::Plus,
        b'#' => Token::Hash,
        b'%' => Token::Percent,
        b'=' => Token::Equals,
        _ => Token::Other,
    }
}

// The token that begins with the first byte of a text, the others of which are given beside it, and
// how many bytes it has.
#[tactic(auto, unfolding(dtd_texts::specs::Tokens::token_at, dtd_texts::specs::Tokens::token_length))]
fn token<'a>(text: &'a [u8], first: u8, others: &'a [u8]) -> (Token<'a>, usize)
    requires { text.now ≡ first ∷ others.now }
    ensures value { token_of result.0 ≡ spec.token_at first others.now }
    ensures length { result.1 ≡ spec.token_length first others.now }
    ensures some { 1 ≤ result.1 }
{
    if is_blank(first) {
        return (Token::Gap, blanks_length(text));
    }
    if in_name(first) {
        let n = name_bytes_length(text);
        return (Token::Word(front(text, n)), n);
    }
    if is_quote(first) {
        let n = length_before(others, first);
        return (Token::Literal(front(others, n)), n + 2);
    }
    (sign(first), 1)
}

/// The tokens of the text of a declaration.
pub fn tokens_of<'a>(alloc: Global, text: &'a [u8]) -> Result<Vec<Token<'a>>, NoMemory>
    ensures { IfOk result (λ ts. tokens_of ts.items ≡ spec.tokens text.now) }
{
    let mut tokens = Vec::new(alloc);
    let mut rest = text;
    while let Some((first, others)) = rest.split_first() {
        let (token, n) = token(rest, *first, others);
        tokens.push(token)?;
        rest = behind(rest, n);
    }
    Ok(tokens)
}
