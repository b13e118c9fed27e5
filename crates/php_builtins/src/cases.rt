//! The functions that keep the length of a text or make it shorter: lower and upper case, trimming
//! and parts.

ghost use Rattle.std.specs.Prelude.{◌≡◌, ◌⊎◌, ◌-◌, length, take, drop, Some, IfOk, IfErr, Ok, Err};
ghost use Rattle.plain_values.specs.Plain.{Plain};
ghost use Rattle.plain_values.specs.Members.{within_length};
ghost use Rattle.string_functions.specs.Case.{lower_of, upper_of, first_upper_of};
ghost use Rattle.string_functions.specs.Trim.{left_trim_of, right_trim_of, trim_of};
ghost use Rattle.string_functions.specs.Cut.{part_of, start_in};

use php_values::Text;
use plain_values::Fault;
use std::alloc::Global;
use string_functions::of_byte::{is_stripped_byte, lower_byte, upper_byte};
use text_base::NoMemory;

fn lowered(alloc: Global, text: &[u8]) -> Result<Vec<u8>, NoMemory>
    ensures { IfOk result (λ bytes. bytes.items ≡ lower_of text.now) }
{
    let mut out = Vec::new(alloc);
    let mut rest = text;
    while let Some((first, others)) = rest.split_first() {
        out.push(lower_byte(*first))?;
        rest = others;
    }
    Ok(out)
}

fn uppered(alloc: Global, text: &[u8]) -> Result<Vec<u8>, NoMemory>
    ensures { IfOk result (λ bytes. bytes.items ≡ upper_of text.now) }
{
    let mut out = Vec::new(alloc);
    let mut rest = text;
    while let Some((first, others)) = rest.split_first() {
        out.push(upper_byte(*first))?;
        rest = others;
    }
    Ok(out)
}

fn first_uppered(alloc: Global, text: &[u8]) -> Result<Vec<u8>, NoMemory>
    ensures { IfOk result (λ bytes. bytes.items ≡ first_upper_of text.now) }
{
    let mut out = Vec::new(alloc);
    match text.split_first() {
        None => Ok(out),
        Some((first, others)) => {
            out.push(upper_byte(*first))?;
            out.extend_from_slice(others)?;
            Ok(out)
        }
    }
}

/// `strtolower(text)` (PHP manual).
pub fn lower(alloc: Global, text: &[u8]) -> Result<Text, Fault>
    ensures ok { IfOk result (λ t. within_length (lower_of text.now) ≡ Ok (Plain.text t)) }
    ensures err { IfErr result
        (λ fault. (fault ≡ Fault.Memory) ⊎ (within_length (lower_of text.now) ≡ Err fault)) }
{
    let bytes = lowered(alloc, text)?;
    Text::from_vec(alloc, bytes)
}

/// `strtoupper(text)` (PHP manual).
pub fn upper(alloc: Global, text: &[u8]) -> Result<Text, Fault>
    ensures ok { IfOk result (λ t. within_length (upper_of text.now) ≡ Ok (Plain.text t)) }
    ensures err { IfErr result
        (λ fault. (fault ≡ Fault.Memory) ⊎ (within_length (upper_of text.now) ≡ Err fault)) }
{
    let bytes = uppered(alloc, text)?;
    Text::from_vec(alloc, bytes)
}

/// `ucfirst(text)` (PHP manual).
pub fn first_upper(alloc: Global, text: &[u8]) -> Result<Text, Fault>
    ensures ok { IfOk result (λ t. within_length (first_upper_of text.now) ≡ Ok (Plain.text t)) }
    ensures err { IfErr result
        (λ fault. (fault ≡ Fault.Memory) ⊎ (within_length (first_upper_of text.now) ≡ Err fault)) }
{
    let bytes = first_uppered(alloc, text)?;
    Text::from_vec(alloc, bytes)
}

fn left_trimmed(text: &[u8]) -> &[u8]
    ensures { result.now ≡ left_trim_of text.now }
{
    let mut rest = text;
    while let Some((first, others)) = rest.split_first() {
        if !is_stripped_byte(*first) {
            break;
        }
        rest = others;
    }
    rest
}

#[tactic(auto, using(crate::proofs::TrimLemmas::right_trim_strip, crate::proofs::TrimLemmas::right_trim_keep))]
fn right_trimmed(text: &[u8]) -> &[u8]
    ensures { result.now ≡ right_trim_of text.now }
{
    let mut rest = text;
    while let Some((last, others)) = rest.split_last() {
        if !is_stripped_byte(*last) {
            break;
        }
        rest = others;
    }
    rest
}

fn trimmed(left: bool, right: bool, text: &[u8]) -> &[u8]
    ensures { result.now ≡ trim_of left right text.now }
{
    let front = if left { left_trimmed(text) } else { text };
    if right { right_trimmed(front) } else { front }
}

/// `trim(text)` where both sides are asked for, `ltrim(text)` and `rtrim(text)` where one is (PHP
/// manual).
pub fn trim(alloc: Global, left: bool, right: bool, text: &[u8]) -> Result<Text, Fault>
    ensures ok { IfOk result (λ t. within_length (trim_of left right text.now) ≡ Ok (Plain.text t)) }
    ensures err { IfErr result
        (λ fault. (fault ≡ Fault.Memory)
        ⊎ (within_length (trim_of left right text.now) ≡ Err fault)) }
{
    Text::new(alloc, trimmed(left, right, text))
}

// Where the part begins.
fn start_of(text: &[u8], start: i64) -> usize
    ensures { result ≡ start_in text.now start }
{
    if start >= 0 {
        start as usize
    } else {
        text.len().saturating_sub(start.unsigned_abs() as usize)
    }
}

/// The bytes behind the first `count`.
pub(crate) fn behind(text: &[u8], count: usize) -> &[u8]
    ensures { result.now ≡ drop count text.now }
{
    &text[count.min(text.len())..]
}

/// The first `count` bytes, or as many as there are.
pub(crate) fn front(text: &[u8], count: usize) -> &[u8]
    ensures { result.now ≡ take count text.now }
{
    &text[..count.min(text.len())]
}

fn part(text: &[u8], start: i64, len: Option<i64>) -> &[u8]
    ensures { result.now ≡ part_of text.now start len }
{
    let from = start_of(text, start);
    let count = match len {
        None => text.len().saturating_sub(from),
        Some(len) => part_length(text, from, len),
    };
    front(behind(text, from), count)
}

fn part_length(text: &[u8], from: usize, len: i64) -> usize
    ensures { result ≡ Rattle.string_functions.specs.Cut.end_in text.now from (Some len) - from }
{
    if len >= 0 {
        len as usize
    } else {
        text.len()
            .saturating_sub(len.unsigned_abs() as usize)
            .saturating_sub(from)
    }
}

/// `substr(text, start, len)` (PHP manual); without a length the rest.
pub fn substr(alloc: Global, text: &[u8], start: i64, len: Option<i64>) -> Result<Text, Fault>
    ensures ok { IfOk result (λ t. within_length (part_of text.now start len) ≡ Ok (Plain.text t)) }
    ensures err { IfErr result
        (λ fault. (fault ≡ Fault.Memory) ⊎ (within_length (part_of text.now start len) ≡ Err fault)) }
{
    Text::new(alloc, part(text, start, len))
}
