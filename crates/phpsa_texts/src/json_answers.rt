//! Answers as JSON: one compact object and a line feed. `yes_json`, `no_json`, `sums_json`,
//! `short_sums_json` and `items_json` give exactly the texts of specs/JsonAnswers.antt, built with
//! `serde_json`. Below stand `text_base`, `serde_json` and `hex`.

ghost use Rattle.std.specs.Prelude.{◌≡◌, ◌++◌, ◌∷◌, [], IfOk, codes, decimal, string_bytes};
ghost use Rattle.hex.specs.Hex.{encode_lower};
ghost use Rattle.json.specs.Print.{quoted};
ghost use Rattle.serde_json.specs.Data.{member, no_members, number, object, string, unsigned};
ghost use Rattle.serde_json.specs.View.{view};
ghost use Rattle.phpsa_texts.specs.JsonAnswers as spec;

use serde_json::{Value, json};
use std::alloc::{AllocError, Global};
use text_base::{Bytes, NoMemory};

fn yes_object(alloc: Global) -> Result<String, AllocError>
    ensures { IfOk result (λ text. string_bytes text ≡ codes "{\"answer\":\"yes\"}") }
{
    json!(in alloc; {"answer": "yes"})?.to_string(alloc)
}

fn no_value(alloc: Global, length: u64, digits: &str) -> Result<Value, AllocError>
    ensures { IfOk result (λ v. view v ≡ object (member (codes "answer") (string (codes "no"))
        (member (codes "length") (number (unsigned length)) (member (codes "page") (string digits.now) no_members)))) }
{
    json!(in alloc; {"answer": "no", "length": length, "page": digits})
}

fn no_object(alloc: Global, length: u64, digits: &str) -> Result<String, AllocError>
    ensures { IfOk result (λ text. string_bytes text
        ≡ codes "{\"answer\":\"no\",\"length\":" ++ (decimal length ++ (codes ",\"page\":" ++ (quoted digits.now ++ codes "}")))) }
{
    let value = no_value(alloc, length, digits)?;
    value.to_string(alloc)
}

fn sums_value(alloc: Global, kind: &str, count: u64, height: u64) -> Result<Value, AllocError>
    ensures { IfOk result
        (λ v. view v ≡ object (member (codes "answer") (string (codes "undecided"))
        (member (codes "count") (number (unsigned count)) (member (codes "height") (number (unsigned height))
        (member (codes "kind") (string kind.now) no_members))))) }
{
    json!(in alloc; {"answer": "undecided", "count": count, "height": height, "kind": kind})
}

fn sums_object(alloc: Global, kind: &str, count: u64, height: u64) -> Result<String, AllocError>
    ensures { IfOk result (λ text. string_bytes text ≡ codes "{\"answer\":\"undecided\",\"count\":"
        ++ (decimal count ++ (codes ",\"height\":" ++ (decimal height ++ (codes ",\"kind\":" ++ (quoted kind.now ++ codes "}")))))) }
{
    let value = sums_value(alloc, kind, count, height)?;
    value.to_string(alloc)
}

fn short_value(alloc: Global, kind: &str, count: u64, length: u64) -> Result<Value, AllocError>
    ensures { IfOk result
        (λ v. view v ≡ object (member (codes "answer") (string (codes "undecided"))
        (member (codes "count") (number (unsigned count)) (member (codes "kind") (string kind.now)
        (member (codes "length") (number (unsigned length)) no_members))))) }
{
    json!(in alloc; {"answer": "undecided", "count": count, "kind": kind, "length": length})
}

fn short_object(alloc: Global, kind: &str, count: u64, length: u64) -> Result<String, AllocError>
    ensures { IfOk result (λ text. string_bytes text ≡ codes "{\"answer\":\"undecided\",\"count\":"
        ++ (decimal count ++ (codes ",\"kind\":" ++ (quoted kind.now ++ (codes ",\"length\":" ++ (decimal length ++ codes "}")))))) }
{
    let value = short_value(alloc, kind, count, length)?;
    value.to_string(alloc)
}

fn items_value(alloc: Global, kind: &str, count: u64) -> Result<Value, AllocError>
    ensures { IfOk result
        (λ v. view v ≡ object (member (codes "answer") (string (codes "undecided"))
        (member (codes "count") (number (unsigned count)) (member (codes "kind") (string kind.now) no_members)))) }
{
    json!(in alloc; {"answer": "undecided", "count": count, "kind": kind})
}

fn items_object(alloc: Global, kind: &str, count: u64) -> Result<String, AllocError>
    ensures { IfOk result (λ text. string_bytes text
        ≡ codes "{\"answer\":\"undecided\",\"count\":" ++ (decimal count ++ (codes ",\"kind\":" ++ (quoted kind.now ++ codes "}")))) }
{
    let value = items_value(alloc, kind, count)?;
    value.to_string(alloc)
}

/// The text on a line of its own.
fn line_of(alloc: Global, text: &str) -> Result<Bytes, NoMemory>
    ensures { IfOk result (λ line. line ≡ text.now ++ 10 ∷ []) }
{
    let mut line = Bytes::from_slice(alloc, text.as_bytes())?;
    line.push(b'\n')?;
    Ok(line)
}

/// That every page is valid: `{"answer":"yes"}` and a line feed.
pub fn yes_json(alloc: Global) -> Result<Bytes, NoMemory>
    ensures { IfOk result (λ text. text ≡ spec.yes_json) }
{
    let object = yes_object(alloc)?;
    line_of(alloc, object.as_str())
}

/// That a page of this length in bytes is not valid, with the bytes at its front:
/// `{"answer":"no","length":LENGTH,"page":"HEX"}` and a line feed.
pub fn no_json(alloc: Global, length: u64, front: &[u8]) -> Result<Bytes, NoMemory>
    ensures { IfOk result (λ text. text ≡ spec.no_json length front.now) }
{
    let digits = hex::encode(alloc, front)?;
    let object = no_object(alloc, length, digits.as_str())?;
    line_of(alloc, object.as_str())
}

/// That a count of this kind was passed, of derivations of at most this height:
/// `{"answer":"undecided","count":COUNT,"height":HEIGHT,"kind":"KIND"}` and a line feed.
pub fn sums_json(alloc: Global, kind: &str, count: u64, height: u64) -> Result<Bytes, NoMemory>
    ensures { IfOk result (λ text. text ≡ spec.sums_json kind.now count height) }
{
    let object = sums_object(alloc, kind, count, height)?;
    line_of(alloc, object.as_str())
}

/// That a count of this kind was passed, of sentences of at most so many bytes:
/// `{"answer":"undecided","count":COUNT,"kind":"KIND","length":LENGTH}` and a line feed.
pub fn short_sums_json(
    alloc: Global,
    kind: &str,
    count: u64,
    length: u64,
) -> Result<Bytes, NoMemory>
    ensures { IfOk result (λ text. text ≡ spec.short_sums_json kind.now count length) }
{
    let object = short_object(alloc, kind, count, length)?;
    line_of(alloc, object.as_str())
}

/// That the count of items was passed: `{"answer":"undecided","count":COUNT,"kind":"items"}` and a
/// line feed.
pub fn items_json(alloc: Global, count: u64) -> Result<Bytes, NoMemory>
    ensures { IfOk result (λ text. text ≡ spec.items_json count) }
{
    let object = items_object(alloc, "items", count)?;
    line_of(alloc, object.as_str())
}
