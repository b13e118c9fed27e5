//! Replacing and cutting at the leftmost occurrences of a text.

ghost use Rattle.std.specs.Prelude.{◌≡◌, ◌⊎◌, ◌++◌, ◌<◌, ◌≤◌, length, nat_lt, IfOk, IfErr, OnOk, Ok, Err};
ghost use Rattle.text_base.specs.declared.limits.TheConstants.{TEXT_LIMIT};
ghost use Rattle.plain_values.specs.Plain.{Plain};
ghost use Rattle.plain_values.specs.Members.{within_length};
ghost use Rattle.string_functions.specs.Pieces.{replaced_text, pieces_of};
ghost use Rattle.builtin_meaning.specs.Values.{pieces_at, numbered_from};
ghost use Rattle.string_functions.specs.Failure.{AreFailures};

use crate::cases::{behind, front};
use php_values::{Array, Text, Value};
use plain_values::Fault;
use std::alloc::Global;
use string_functions::{failures, find};
use text_base::NoMemory;
use text_base::limits::TEXT_LIMIT;

// Whether the text with its occurrences replaced is longer than a text may be.
fn is_too_long(search: &[u8], failures: &[usize], with: &[u8], text: &[u8]) -> bool
    requires search { 0 < length search.now }
    requires failures { AreFailures search.now failures.now (length search.now) }
    ensures { result ≡ nat_lt TEXT_LIMIT (length (replaced_text search.now with.now text.now)) }
{
    let mut total: usize = 0;
    let mut rest = text;
    while let Some(at) = find(search, failures, rest) {
        if at > TEXT_LIMIT - total {
            return true;
        }
        total += at;
        if with.len() > TEXT_LIMIT - total {
            return true;
        }
        total += with.len();
        rest = behind(rest, at + search.len());
    }
    rest.len() > TEXT_LIMIT - total
}

fn push_both(out: &mut Vec<u8>, first: &[u8], second: &[u8]) -> Result<(), NoMemory>
    ensures { OnOk result (out.new.items ≡ out.old.items ++ (first.now ++ second.now)) }
{
    out.extend_from_slice(first)?;
    out.extend_from_slice(second)?;
    Ok(())
}

fn replaced(
    alloc: Global,
    search: &[u8],
    failures: &[usize],
    with: &[u8],
    text: &[u8],
) -> Result<Vec<u8>, NoMemory>
    requires search { 0 < length search.now }
    requires failures { AreFailures search.now failures.now (length search.now) }
    requires short { length (replaced_text search.now with.now text.now) ≤ TEXT_LIMIT }
    ensures { IfOk result (λ bytes. bytes.items ≡ replaced_text search.now with.now text.now) }
{
    let mut out = Vec::new(alloc);
    let mut rest = text;
    while let Some(at) = find(search, failures, rest) {
        push_both(&mut out, front(rest, at), with)?;
        rest = behind(rest, at + search.len());
    }
    out.extend_from_slice(rest)?;
    Ok(out)
}

/// `str_replace(search, with, text)` of texts (PHP manual): each of the leftmost occurrences that
/// do not overlap is replaced, and what is put in is not searched again; an empty search leaves
/// the text. Faults Long exactly where the result would be longer than 16,777,216 bytes, before
/// anything is built. Takes time linear in the arguments and the result.
pub fn replace(alloc: Global, search: &[u8], with: &[u8], text: &[u8]) -> Result<Text, Fault>
    ensures ok { IfOk result
        (λ t. within_length (replaced_text search.now with.now text.now) ≡ Ok (Plain.text t)) }
    ensures err { IfErr result (λ fault. (fault ≡ Fault.Memory)
        ⊎ (within_length (replaced_text search.now with.now text.now) ≡ Err fault)) }
{
    if search.is_empty() {
        return Text::new(alloc, text);
    }
    let failures = failures(alloc, search)?;
    if is_too_long(search, failures.as_slice(), with, text) {
        return Err(Fault::Long);
    }
    let bytes = replaced(alloc, search, failures.as_slice(), with, text)?;
    Text::from_vec(alloc, bytes)
}

// The pieces of the text between the occurrences.
fn cut(alloc: Global, sep: &[u8], failures: &[usize], text: &[u8]) -> Result<Vec<Text>, NoMemory>
    requires sep { 0 < length sep.now }
    requires failures { AreFailures sep.now failures.now (length sep.now) }
    requires short { length text.now ≤ TEXT_LIMIT }
    ensures { IfOk result (λ pieces. pieces.items ≡ pieces_of sep.now text.now) }
{
    let mut out = Vec::new(alloc);
    let mut rest = text;
    while let Some(at) = find(sep, failures, rest) {
        let piece = Text::from_short(alloc, front(rest, at))?;
        out.push(piece)?;
        rest = behind(rest, at + sep.len());
    }
    let piece = Text::from_short(alloc, rest)?;
    out.push(piece)?;
    Ok(out)
}

// Texts as an array with the keys 0, 1 and so on.
fn list_of(alloc: Global, texts: &[Text]) -> Result<Array, Fault>
    requires { length texts.now ≤ 16777217 }
    ensures ok { IfOk result (λ array. array ≡ numbered_from 0 texts.now) }
    ensures err { IfErr result (λ fault. fault ≡ Fault.Memory) }
{
    let mut made = Array::new(alloc)?;
    for text in texts {
        let own = text.share()?;
        made.push(Value::Text(own))?;
    }
    Ok(made)
}

/// `explode(sep, text)` (PHP manual): the pieces between the leftmost occurrences that do not
/// overlap. Faults WrongType exactly where the separator is empty. Takes time linear in both.
pub fn explode(alloc: Global, sep: &[u8], text: &Text) -> Result<Array, Fault>
    ensures ok { IfOk result (λ array. pieces_at sep.now text.now ≡ Ok (Plain.array array)) }
    ensures err { IfErr result
        (λ fault. (fault ≡ Fault.Memory) ⊎ (pieces_at sep.now text.now ≡ Err fault)) }
{
    if sep.is_empty() {
        return Err(Fault::WrongType);
    }
    let failures = failures(alloc, sep)?;
    let pieces = cut(alloc, sep, failures.as_slice(), text.as_slice())?;
    list_of(alloc, pieces.as_slice())
}
