//! What stands between tokens, and the tags of PHP.

ghost use Rattle.std.specs.Prelude.{◌≡◌, ◌+◌, ◌≤◌, ◌<◌, length, codes, IfSome};
ghost use Rattle.lexical_grammar.specs.Characters as chars;
ghost use Rattle.lexical_grammar.specs.Cuts as spec;
ghost use Rattle.php_lexer.specs.View.{maybe_step, IsWithin};

use crate::scan::{begins, behind, front, head_is_line_end, newline_length};
use crate::step::{Mode, Step};
use lexical_grammar::fault::LexicalFault;
use php_syntax::token::{Sign, TokenKind};
use std::alloc::Global;
use text_base::{Bytes, NoMemory};

fn ends_line(bytes: &[u8]) -> bool
    ensures { result ≡ spec.ends_line bytes.now }
{
    head_is_line_end(bytes) || begins(bytes, b"?>")
}

// How long a comment of one line is.
#[tactic(auto, using(crate::proofs::BeforeLemmas::before_more, crate::proofs::BeforeLemmas::before_found, crate::proofs::BeforeLemmas::before_end))]
fn line_length(bytes: &[u8]) -> usize
    ensures value { result ≡ chars.before spec.ends_line bytes.now }
    ensures within { result ≤ length bytes.now }
{
    for n in 0..bytes.len() {
        if ends_line(behind(bytes, n)) {
            return n;
        }
    }
    bytes.len()
}

/// A comment that begins with `//` or `#`.
#[tactic(auto, unfolding(lexical_grammar::specs::Cuts::line_comment_step))]
pub fn line_comment_step(bytes: &[u8]) -> Option<Step>
    ensures value { maybe_step result ≡ spec.line_comment_step bytes.now }
    ensures within { IfSome result (IsWithin (length bytes.now)) }
{
    let slashes = begins(bytes, b"//");
    let sharp = begins(bytes, b"#");
    let attribute = begins(bytes, b"#[");
    if slashes || (sharp && !attribute) {
        Some(Step::Goes(None, line_length(bytes), Mode::Inside))
    } else {
        None
    }
}

// How many bytes stand before the first `*/`.
#[tactic(auto, using(crate::proofs::BeforeLemmas::before_more, crate::proofs::BeforeLemmas::before_found, crate::proofs::BeforeLemmas::before_end))]
fn block_length(bytes: &[u8]) -> usize
    ensures value { result ≡ chars.before (chars.begins (codes "*/")) bytes.now }
    ensures within { result < length bytes.now → result + 2 ≤ length bytes.now }
{
    for n in 0..bytes.len() {
        if begins(behind(bytes, n), b"*/") {
            return n;
        }
    }
    bytes.len()
}

/// A comment in `/*` and `*/`.
#[tactic(auto, unfolding(lexical_grammar::specs::Cuts::block_comment_step))]
pub fn block_comment_step(bytes: &[u8]) -> Option<Step>
    ensures value { maybe_step result ≡ spec.block_comment_step bytes.now }
    ensures within { IfSome result (IsWithin (length bytes.now)) }
{
    if !begins(bytes, b"/*") {
        return None;
    }
    let inner = behind(bytes, 2);
    let n = block_length(inner);
    if n < inner.len() {
        Some(Step::Goes(None, 4 + n, Mode::Inside))
    } else {
        Some(Step::Refuses(LexicalFault::Unclosed, 0))
    }
}

/// `?>` with the line end behind it.
#[tactic(auto, unfolding(lexical_grammar::specs::Cuts::leaving_step))]
pub fn leaving_step(bytes: &[u8]) -> Option<Step>
    ensures value { maybe_step result ≡ spec.leaving_step bytes.now }
    ensures within { IfSome result (IsWithin (length bytes.now)) }
{
    if !begins(bytes, b"?>") {
        return None;
    }
    let n = newline_length(behind(bytes, 2));
    Some(Step::Goes(Some(TokenKind::Sign(Sign::Semicolon)), 2 + n, Mode::Outside))
}
