//! One place of a template.

ghost use Rattle.std.specs.Prelude.{◌≡◌, ◌+◌, ◌||◌, ◌==◌, codes, length, IfOk};
ghost use Rattle.lexical_grammar.specs.Characters as chars;
ghost use Rattle.lexical_grammar.specs.Texts as spec;
ghost use Rattle.php_lexer.specs.Rows.{plain_found, FoundWithin};
ghost use Rattle.php_lexer.specs.Templates.{enclosure_of, unit_of};

use crate::found::Found;
use crate::keys::{closed_simple_key, subscripts};
use crate::scan::{begins, behind, front, name_length};
use crate::template::{Enclosure, TextUnit};
use lexical_grammar::is_high;
use std::alloc::Global;
use text_base::{Bytes, NoMemory};

// Whether a text in such an enclosure is in double quotes.
fn in_quotes(enclosure: Enclosure) -> bool
    ensures { result ≡ spec.in_quotes (enclosure_of enclosure) }
{
    match enclosure {
        Enclosure::Quotes => true,
        Enclosure::Lines => false,
    }
}

// What stands behind a backslash.
#[tactic(auto, unfolding(lexical_grammar::specs::Texts::escape_at))]
fn escape_at(enclosure: Enclosure, bytes: &[u8]) -> Found<TextUnit>
    ensures value { plain_found unit_of result ≡ spec.escape_at (enclosure_of enclosure) bytes.now }
    ensures within { FoundWithin (1 + length bytes.now) result }
{
    match bytes {
        [] => Found::Wrong(1),
        [byte, ..] => {
            if *byte == b'n' {
                Found::Item(TextUnit::Byte(b'\n'), 2)
            } else if *byte == b'r' {
                Found::Item(TextUnit::Byte(b'\r'), 2)
            } else if *byte == b't' {
                Found::Item(TextUnit::Byte(b'\t'), 2)
            } else if *byte == b'\\' {
                Found::Item(TextUnit::Byte(b'\\'), 2)
            } else if *byte == b'$' {
                Found::Item(TextUnit::Byte(b'$'), 2)
            } else if *byte == b'"' && in_quotes(enclosure) {
                Found::Item(TextUnit::Byte(b'"'), 2)
            } else {
                Found::Wrong(2)
            }
        }
    }
}

fn head_is_high(bytes: &[u8]) -> bool
    ensures { result ≡ chars.head_is chars.is_high bytes.now }
{
    match bytes {
        [] => false,
        [byte, ..] => is_high(*byte),
    }
}

fn head_is_high_or_brace(bytes: &[u8]) -> bool
    ensures { result ≡ chars.head_is (λ b. chars.is_high b || b == 123) bytes.now }
{
    match bytes {
        [] => false,
        [byte, ..] => is_high(*byte) || *byte == 123,
    }
}

// What a variable may not stand before.
fn begins_other_form(rest: &[u8]) -> bool
    ensures { result ≡ (chars.begins (codes "->") rest.now || chars.begins (codes "?->") rest.now ||
        chars.head_is chars.is_high rest.now) }
{
    begins(rest, b"->") || begins(rest, b"?->") || head_is_high(rest)
}

// A name behind `$`, and what follows it.
fn named_at(alloc: Global, name: &[u8], rest: &[u8]) -> Result<Found<TextUnit>, NoMemory>
    ensures value { IfOk result
        (λ found. plain_found unit_of found ≡ spec.named_at name.now rest.now) }
    ensures within { IfOk result (FoundWithin (1 + length name.now + length rest.now)) }
{
    if begins(rest, b"[") {
        return match closed_simple_key(alloc, behind(rest, 1))? {
            None => Ok(Found::Wrong(1)),
            Some((key, n)) => {
                let mut keys = Vec::new(alloc);
                keys.push(key)?;
                let unit = TextUnit::Reads(Bytes::from_slice(alloc, name)?, keys);
                Ok(Found::Item(unit, 1 + name.len() + n))
            }
        };
    }
    if begins_other_form(rest) {
        return Ok(Found::Wrong(1));
    }
    let unit = TextUnit::Reads(Bytes::from_slice(alloc, name)?, Vec::new(alloc));
    Ok(Found::Item(unit, 1 + name.len()))
}

// What stands behind `$`.
#[tactic(auto, unfolding(lexical_grammar::specs::Texts::dollar_at))]
fn dollar_at(alloc: Global, bytes: &[u8]) -> Result<Found<TextUnit>, NoMemory>
    ensures value { IfOk result (λ found. plain_found unit_of found ≡ spec.dollar_at bytes.now) }
    ensures within { IfOk result (FoundWithin (1 + length bytes.now)) }
{
    let n = name_length(bytes);
    if 0 < n {
        return named_at(alloc, front(bytes, n), behind(bytes, n));
    }
    if head_is_high_or_brace(bytes) {
        Ok(Found::Wrong(1))
    } else {
        Ok(Found::Item(TextUnit::Byte(b'$'), 1))
    }
}

// What stands behind a `{` before `$`.
#[tactic(auto, unfolding(lexical_grammar::specs::Texts::brace_at))]
fn brace_at(alloc: Global, bytes: &[u8]) -> Result<Found<TextUnit>, NoMemory>
    ensures value { IfOk result (λ found. plain_found unit_of found ≡ spec.brace_at bytes.now) }
    ensures within { IfOk result (FoundWithin (1 + length bytes.now)) }
{
    let inner = behind(bytes, 1);
    let n = name_length(inner);
    if n == 0 {
        return Ok(Found::Wrong(1));
    }
    match subscripts(alloc, behind(inner, n))? {
        None => Ok(Found::Wrong(1)),
        Some((keys, m)) => {
            let name = Bytes::from_slice(alloc, front(inner, n))?;
            Ok(Found::Item(TextUnit::Reads(name, keys), 2 + n + m))
        }
    }
}

// The end of a text.
fn end_of(enclosure: Enclosure) -> Found<TextUnit>
    ensures value { plain_found unit_of result ≡ spec.end_of (enclosure_of enclosure) }
    ensures within { FoundWithin 0 result }
{
    match enclosure {
        Enclosure::Quotes => Found::Missing,
        Enclosure::Lines => Found::Over(0),
    }
}

/// One place of a template.
#[tactic(auto, unfolding(lexical_grammar::specs::Texts::unit_at))]
pub fn unit_at(
    alloc: Global,
    enclosure: Enclosure,
    bytes: &[u8],
) -> Result<Found<TextUnit>, NoMemory>
    ensures value { IfOk result
        (λ found. plain_found unit_of found ≡ spec.unit_at (enclosure_of enclosure) bytes.now) }
    ensures within { IfOk result (FoundWithin (length bytes.now)) }
{
    let inner = behind(bytes, 1);
    match bytes {
        [] => Ok(end_of(enclosure)),
        [byte, ..] => {
            if *byte == b'"' && in_quotes(enclosure) {
                Ok(Found::Over(1))
            } else if *byte == b'\\' {
                Ok(escape_at(enclosure, inner))
            } else if *byte == b'$' {
                dollar_at(alloc, inner)
            } else if *byte == b'{' && begins(inner, b"$") {
                brace_at(alloc, inner)
            } else {
                Ok(Found::Item(TextUnit::Byte(*byte), 1))
            }
        }
    }
}
