//! Single-quoted texts.

ghost use Rattle.std.specs.Prelude.{◌≡◌, ◌≤◌, length, IfOk, IfSome};
ghost use Rattle.lexical_grammar.specs.Texts as spec;
ghost use Rattle.php_lexer.specs.Rows.{plain_found, text_row, FoundWithin};
ghost use Rattle.php_lexer.specs.View.{Reads, ReadsWithin};

use crate::found::Found;
use crate::scan::{begins, behind};
use crate::step::{Mode, Step};
use lexical_grammar::fault::LexicalFault;
use php_syntax::token::TokenKind;
use std::alloc::Global;
use text_base::{Bytes, NoMemory};

// One place of a single-quoted text.
fn single_at(bytes: &[u8]) -> Found<u8>
    ensures value { plain_found (λ b. b) result ≡ spec.single_at bytes.now }
    ensures within { FoundWithin (length bytes.now) result }
{
    match bytes {
        [] => Found::Missing,
        [byte] => {
            if *byte == b'\'' {
                Found::Over(1)
            } else {
                Found::Item(*byte, 1)
            }
        }
        [byte, second, ..] => {
            if *byte == b'\'' {
                Found::Over(1)
            } else if *byte == b'\\' && (*second == b'\'' || *second == b'\\') {
                Found::Item(*second, 2)
            } else {
                Found::Item(*byte, 1)
            }
        }
    }
}

/// The text behind a first quote up to the second, and how many bytes it takes with that one;
/// None where it has no end.
pub fn single_quoted(alloc: Global, bytes: &[u8]) -> Result<Option<(Bytes, usize)>, NoMemory>
    ensures value { IfOk result (λ o. text_row o ≡ spec.single_quoted bytes.now) }
    ensures within { IfOk result (λ o. IfSome o (λ found. found.1 ≤ length bytes.now)) }
{
    let mut text = Bytes::new(alloc);
    let mut n = 0;
    while n < bytes.len() {
        match single_at(behind(bytes, n)) {
            Found::Item(byte, k) => {
                text.push(byte)?;
                n += k;
            }
            Found::Over(k) => return Ok(Some((text, n + k))),
            Found::Wrong(_) => return Ok(None),
            Found::Missing => return Ok(None),
        }
    }
    Ok(None)
}

/// A single-quoted text.
#[tactic(auto, unfolding(lexical_grammar::specs::Texts::single_step))]
pub fn single_step(alloc: Global, bytes: &[u8]) -> Result<Option<Step>, NoMemory>
    ensures value { Reads result (spec.single_step bytes.now) }
    ensures within { ReadsWithin result (length bytes.now) }
{
    if !begins(bytes, b"'") {
        return Ok(None);
    }
    match single_quoted(alloc, behind(bytes, 1))? {
        None => Ok(Some(Step::Refuses(LexicalFault::Unclosed, 0))),
        Some((text, n)) => Ok(Some(Step::Goes(Some(TokenKind::Str(text)), 1 + n, Mode::Inside))),
    }
}
