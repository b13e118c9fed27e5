//! Outside PHP: the opening tags, and the bytes between them.

ghost use Rattle.std.specs.Prelude.{◌≡◌, ◌<◌, ◌≤◌, length, IfOk, IfSome, IsTrue, bytes_eq, codes, map, false};
ghost use Rattle.lexical_grammar.specs.Characters as chars;
ghost use Rattle.lexical_grammar.specs.Cuts as spec;
ghost use Rattle.lexical_grammar.specs.Steps.{outside};
ghost use Rattle.php_lexer.specs.View.{maybe_step, plain_step, Reads, ReadsWithin, IsWithin};

use crate::scan::{begins, behind, front, newline_length};
use crate::step::{Mode, Step};
use lexical_grammar::{is_gap, is_line_end, lower};
use php_syntax::token::TokenKind;
use std::alloc::Global;
use text_base::{Bytes, NoMemory};

// How long the blank behind an opener is; None where another byte stands there.
fn blank_behind(bytes: &[u8]) -> Option<usize>
    ensures value { result ≡ spec.blank_behind bytes.now }
    ensures within { IfSome result (λ n. n ≤ length bytes.now) }
{
    let newline = newline_length(bytes);
    match bytes {
        [] => Some(0),
        [byte, ..] => {
            if is_gap(*byte) {
                Some(1)
            } else if is_line_end(*byte) {
                Some(newline)
            } else {
                None
            }
        }
    }
}

// Whether the bytes are `<?php`, in any case.
fn is_php_tag(bytes: &[u8]) -> bool
    ensures value { result ≡ bytes_eq (map chars.lower bytes.now) (codes "<?php") }
    ensures long { IsTrue result → length bytes.now ≡ 5 }
{
    match bytes {
        [a, b, c, d, e] => {
            lower(*a) == b'<'
                && lower(*b) == b'?'
                && lower(*c) == b'p'
                && lower(*d) == b'h'
                && lower(*e) == b'p'
        }
        _ => false,
    }
}

// `<?php` with its blank.
fn php_opener(bytes: &[u8]) -> Option<Step>
    ensures value { maybe_step result ≡ spec.php_opener bytes.now }
    ensures within { IfSome result (IsWithin (length bytes.now)) }
{
    if !is_php_tag(front(bytes, 5)) {
        return None;
    }
    match blank_behind(behind(bytes, 5)) {
        None => None,
        Some(n) => Some(Step::Goes(None, 5 + n, Mode::Inside)),
    }
}

// `<?=`, which gives the name echo.
fn echo_opener(alloc: Global, bytes: &[u8]) -> Result<Option<Step>, NoMemory>
    ensures value { Reads result (spec.echo_opener bytes.now) }
    ensures within { ReadsWithin result (length bytes.now) }
{
    if !begins(bytes, b"<?=") {
        return Ok(None);
    }
    let echo = Bytes::from_slice(alloc, b"echo")?;
    Ok(Some(Step::Goes(Some(TokenKind::Name(echo)), 3, Mode::Inside)))
}

// An opener.
#[tactic(auto, unfolding(lexical_grammar::specs::Cuts::opener_step))]
fn opener_step(alloc: Global, bytes: &[u8]) -> Result<Option<Step>, NoMemory>
    ensures value { Reads result (spec.opener_step bytes.now) }
    ensures within { ReadsWithin result (length bytes.now) }
{
    match echo_opener(alloc, bytes)? {
        Some(step) => Ok(Some(step)),
        None => Ok(php_opener(bytes)),
    }
}

// Whether an opener stands at the head.
#[tactic(auto, unfolding(lexical_grammar::specs::Cuts::opener_step))]
fn is_opener(bytes: &[u8]) -> bool
    ensures { result ≡ spec.is_opener bytes.now }
{
    if begins(bytes, b"<?=") {
        return true;
    }
    match php_opener(bytes) {
        Some(_) => true,
        None => false,
    }
}

// How many bytes stand before the next opener.
#[tactic(auto, using(crate::proofs::BeforeLemmas::before_more, crate::proofs::BeforeLemmas::before_found, crate::proofs::BeforeLemmas::before_end))]
fn inline_length(bytes: &[u8]) -> usize
    ensures value { result ≡ chars.before spec.is_opener bytes.now }
    ensures within { result ≤ length bytes.now }
    ensures some { 0 < length bytes.now → spec.is_opener bytes.now ≡ false → 0 < result }
{
    for n in 0..bytes.len() {
        if is_opener(behind(bytes, n)) {
            return n;
        }
    }
    bytes.len()
}

/// What stands at the head outside PHP: an opener, or the bytes up to the next one.
#[tactic(auto, unfolding(lexical_grammar::specs::Cuts::step))]
pub fn outside_step(alloc: Global, bytes: &[u8]) -> Result<Step, NoMemory>
    requires { 0 < length bytes.now }
    ensures value { IfOk result (λ s. plain_step s ≡ spec.step outside bytes.now) }
    ensures within { IfOk result (IsWithin (length bytes.now)) }
{
    match opener_step(alloc, bytes)? {
        Some(step) => Ok(step),
        None => {
            let n = inline_length(bytes);
            let text = Bytes::from_slice(alloc, front(bytes, n))?;
            Ok(Step::Goes(Some(TokenKind::Inline(text)), n, Mode::Outside))
        }
    }
}
