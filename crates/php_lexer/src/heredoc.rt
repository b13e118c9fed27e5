//! Heredocs and nowdocs.

ghost use Rattle.std.specs.Prelude.{◌≡◌, ◌<◌, ◌≤◌, ◌+◌, ◌^◌, ℕ, length, drop, IfOk, IfSome, IsTrue};
ghost use Rattle.lexical_grammar.specs.Characters as chars;
ghost use Rattle.lexical_grammar.specs.Heredocs as spec;
ghost use Rattle.php_lexer.specs.Heredocs.{body_of};
ghost use Rattle.php_lexer.specs.View.{Reads, ReadsWithin};

use crate::double::{kind_of_parts, template};
use crate::scan::{begins, behind, front, gap_length, head_is_name_byte, name_length};
use crate::step::{Mode, Step};
use crate::template::{Enclosure, TextRow};
use lexical_grammar::fault::LexicalFault;
use php_syntax::token::TokenKind;
use std::alloc::Global;
use text_base::{Bytes, NoMemory};

/// What stands in the lines: a template, or in a nowdoc the bytes themselves.
#[derive(Clone, Copy, Debug)]
pub enum Body {
    Heredoc,
    Nowdoc,
}

// How long the line end at the head is; 0 where none stands there.
fn heredoc_newline(bytes: &[u8]) -> usize
    ensures value { result ≡ spec.heredoc_newline bytes.now }
    ensures within { result ≤ length bytes.now }
{
    if begins(bytes, b"\n") {
        1
    } else if begins(bytes, b"\r\n") {
        2
    } else {
        0
    }
}

// Whether the name stands at the head, and no byte of a name behind it.
fn begins_name(name: &[u8], bytes: &[u8]) -> bool
    ensures value { result ≡ spec.begins_name name.now bytes.now }
    ensures long { IsTrue result → length name.now ≤ length bytes.now }
{
    begins(bytes, name) && !head_is_name_byte(behind(bytes, name.len()))
}

// Whether a line end and the name stand at the head.
fn ends_body(name: &[u8], bytes: &[u8]) -> bool
    ensures value { result ≡ spec.ends_body name.now bytes.now }
    ensures long { IsTrue result
        → spec.heredoc_newline bytes.now + length name.now ≤ length bytes.now }
{
    let newline = heredoc_newline(bytes);
    0 < newline && begins_name(name, behind(bytes, newline))
}

// Whether blanks and the name stand at the head.
fn begins_indented(name: &[u8], bytes: &[u8]) -> bool
    ensures { result ≡ spec.begins_indented name.now bytes.now }
{
    let gap = gap_length(bytes);
    0 < gap && begins_name(name, behind(bytes, gap))
}

// Whether LF and then a line of blanks and the name stand at the head.
fn indented_line(name: &[u8], bytes: &[u8]) -> bool
    ensures { result ≡ spec.indented_line name.now bytes.now }
{
    begins(bytes, b"\n") && begins_indented(name, behind(bytes, 1))
}

// How many bytes stand before the first such line end.
#[tactic(auto, using(crate::proofs::BeforeLemmas::before_more, crate::proofs::BeforeLemmas::before_found, crate::proofs::BeforeLemmas::before_end))]
fn indented_place(name: &[u8], body: &[u8]) -> usize
    ensures value { result ≡ chars.before (spec.indented_line name.now) body.now }
    ensures within { result ≤ length body.now }
{
    for n in 0..body.len() {
        if indented_line(name, behind(body, n)) {
            return n;
        }
    }
    body.len()
}

// How many bytes stand before the first line of blanks and the name.
#[tactic(auto, unfolding(lexical_grammar::specs::Heredocs::indented_at))]
fn indented_at(name: &[u8], body: &[u8]) -> Option<usize>
    ensures value { result ≡ spec.indented_at name.now body.now }
    ensures within { IfSome result (λ n. n ≤ length body.now) }
{
    if begins_indented(name, body) {
        return Some(0);
    }
    let n = indented_place(name, body);
    if n < body.len() { Some(n + 1) } else { None }
}

// Whether a CR alone, blanks or none, and the name stand at the head.
fn ends_by_return(name: &[u8], bytes: &[u8]) -> bool
    ensures { result ≡ spec.ends_by_return name.now bytes.now }
{
    let inner = behind(bytes, 1);
    begins(bytes, b"\r") && begins_name(name, behind(inner, gap_length(inner)))
}

// How many bytes stand before the first such CR; all where there is none.
#[tactic(auto, using(crate::proofs::BeforeLemmas::before_more, crate::proofs::BeforeLemmas::before_found, crate::proofs::BeforeLemmas::before_end))]
fn return_place(name: &[u8], body: &[u8]) -> usize
    ensures value { result ≡ chars.before (spec.ends_by_return name.now) body.now }
    ensures within { result ≤ length body.now }
{
    for n in 0..body.len() {
        if ends_by_return(name, behind(body, n)) {
            return n;
        }
    }
    body.len()
}

// How many bytes stand before the first such CR.
#[tactic(auto, unfolding(lexical_grammar::specs::Heredocs::return_at))]
fn return_at(name: &[u8], body: &[u8]) -> Option<usize>
    ensures value { result ≡ spec.return_at name.now body.now }
    ensures within { IfSome result (λ n. n ≤ length body.now) }
{
    let n = return_place(name, body);
    if n < body.len() { Some(n) } else { None }
}

// The first of two places.
fn first_of(first: Option<usize>, second: Option<usize>) -> Option<usize>
    ensures value { result ≡ spec.first_of first second }
    ensures within { (most : ℕ) → IfSome first (λ n. n ≤ most) → IfSome second (λ n. n ≤ most)
        → IfSome result (λ n. n ≤ most) }
{
    match (first, second) {
        (None, second) => second,
        (Some(k), None) => Some(k),
        (Some(k), Some(m)) => Some(k.min(m)),
    }
}

// How many bytes stand before the first place at which PHP would end the body.
fn other_end_at(name: &[u8], body: &[u8]) -> Option<usize>
    ensures value { result ≡ spec.other_end_at name.now body.now }
    ensures within { IfSome result (λ n. n ≤ length body.now) }
{
    first_of(indented_at(name, body), return_at(name, body))
}

// How many bytes stand before the line end and the name that end the body; all where none do.
#[tactic(auto, using(crate::proofs::BeforeLemmas::before_more, crate::proofs::BeforeLemmas::before_found, crate::proofs::BeforeLemmas::before_end))]
fn body_length(name: &[u8], bytes: &[u8]) -> usize
    ensures value { result ≡ chars.before (spec.ends_body name.now) bytes.now }
    ensures within { result ≤ length bytes.now }
    ensures fits { result < length bytes.now → result +
        (spec.heredoc_newline (drop result bytes.now) + length name.now) ≤ length bytes.now }
{
    for n in 0..bytes.len() {
        if ends_body(name, behind(bytes, n)) {
            return n;
        }
    }
    bytes.len()
}

// The token of a heredoc's lines.
fn heredoc_token(
    alloc: Global,
    head: usize,
    n: usize,
    name: &[u8],
    body: &[u8],
) -> Result<Option<Step>, NoMemory>
    requires { head + length body.now < 2 ^ 63 }
    ensures value { Reads result (spec.body_token spec.of_heredoc head n name.now body.now) }
    ensures within { (most : ℕ) → head + length body.now ≤ most → 0 < n → n ≤ most
        → ReadsWithin result most }
{
    let other_end = other_end_at(name, body);
    match template(alloc, Enclosure::Lines, body)? {
        TextRow::Whole(parts, _) => match other_end {
            None => {
                let kind = kind_of_parts(alloc, parts)?;
                Ok(Some(Step::Goes(Some(kind), n, Mode::Inside)))
            }
            Some(k) => Ok(Some(Step::Refuses(LexicalFault::Escape, head + k))),
        },
        TextRow::Broken(m) => match other_end {
            None => Ok(Some(Step::Refuses(LexicalFault::Escape, head + m))),
            Some(k) => Ok(Some(Step::Refuses(LexicalFault::Escape, head + k.min(m)))),
        },
        TextRow::Endless => Ok(Some(Step::Refuses(LexicalFault::Unclosed, 0))),
    }
}

// The token of a nowdoc's lines.
fn nowdoc_token(
    alloc: Global,
    head: usize,
    n: usize,
    name: &[u8],
    body: &[u8],
) -> Result<Option<Step>, NoMemory>
    requires { head + length body.now < 2 ^ 63 }
    ensures value { Reads result (spec.body_token spec.of_nowdoc head n name.now body.now) }
    ensures within { (most : ℕ) → head + length body.now ≤ most → 0 < n → n ≤ most
        → ReadsWithin result most }
{
    match other_end_at(name, body) {
        None => {
            let text = Bytes::from_slice(alloc, body)?;
            Ok(Some(Step::Goes(Some(TokenKind::Str(text)), n, Mode::Inside)))
        }
        Some(k) => Ok(Some(Step::Refuses(LexicalFault::Escape, head + k))),
    }
}

// The token of the lines.
fn body_token(
    alloc: Global,
    kind: Body,
    head: usize,
    n: usize,
    name: &[u8],
    body: &[u8],
) -> Result<Option<Step>, NoMemory>
    requires { head + length body.now < 2 ^ 63 }
    ensures value { Reads result (spec.body_token (body_of kind) head n name.now body.now) }
    ensures within { (most : ℕ) → head + length body.now ≤ most → 0 < n → n ≤ most
        → ReadsWithin result most }
{
    match kind {
        Body::Heredoc => heredoc_token(alloc, head, n, name, body),
        Body::Nowdoc => nowdoc_token(alloc, head, n, name, body),
    }
}

// The lines behind a head of so many bytes, up to the name.
#[tactic(auto, unfolding(lexical_grammar::specs::Heredocs::body_step))]
fn body_step(
    alloc: Global,
    kind: Body,
    head: usize,
    name: &[u8],
    bytes: &[u8],
) -> Result<Option<Step>, NoMemory>
    requires some { 0 < head }
    requires fits { head + length bytes.now < 2 ^ 63 }
    ensures value { Reads result (spec.body_step (body_of kind) head name.now bytes.now) }
    ensures within { ReadsWithin result (head + length bytes.now) }
{
    if begins_name(name, bytes) {
        return body_token(alloc, kind, head, head + name.len(), name, &[]);
    }
    let n = body_length(name, bytes);
    if n < bytes.len() {
        let newline = heredoc_newline(behind(bytes, n));
        let taken = head + n + newline + name.len();
        body_token(alloc, kind, head, taken, name, front(bytes, n))
    } else {
        Ok(Some(Step::Refuses(LexicalFault::Unclosed, 0)))
    }
}

// Behind a head with the name in it, if a line end stands there.
fn headed(
    alloc: Global,
    kind: Body,
    head: usize,
    name: &[u8],
    rest: &[u8],
) -> Result<Option<Step>, NoMemory>
    requires some { 0 < head }
    requires fits { head + length rest.now < 2 ^ 63 }
    ensures value { Reads result (spec.headed (body_of kind) head name.now rest.now) }
    ensures within { ReadsWithin result (head + length rest.now) }
{
    let newline = heredoc_newline(rest);
    if 0 < name.len() && 0 < newline {
        body_step(alloc, kind, head + newline, name, behind(rest, newline))
    } else {
        Ok(None)
    }
}

/// `<<<NAME` and its lines.
#[tactic(auto, unfolding(lexical_grammar::specs::Heredocs::heredoc_step))]
pub fn heredoc_step(alloc: Global, bytes: &[u8]) -> Result<Option<Step>, NoMemory>
    ensures value { Reads result (spec.heredoc_step bytes.now) }
    ensures within { ReadsWithin result (length bytes.now) }
{
    if !begins(bytes, b"<<<") {
        return Ok(None);
    }
    let named = behind(bytes, 3);
    let n = name_length(named);
    headed(
        alloc,
        Body::Heredoc,
        3 + n,
        front(named, n),
        behind(named, n),
    )
}

/// `<<<'NAME'` and its lines.
#[tactic(auto, unfolding(lexical_grammar::specs::Heredocs::nowdoc_step))]
pub fn nowdoc_step(alloc: Global, bytes: &[u8]) -> Result<Option<Step>, NoMemory>
    ensures value { Reads result (spec.nowdoc_step bytes.now) }
    ensures within { ReadsWithin result (length bytes.now) }
{
    if !begins(bytes, b"<<<'") {
        return Ok(None);
    }
    let named = behind(bytes, 4);
    let n = name_length(named);
    let closing = behind(named, n);
    if begins(closing, b"'") {
        headed(
            alloc,
            Body::Nowdoc,
            5 + n,
            front(named, n),
            behind(closing, 1),
        )
    } else {
        Ok(None)
    }
}
