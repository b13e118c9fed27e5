//! The functions of values: each with its arguments as values, and a value as its result.

ghost use Rattle.std.specs.Prelude.{◌≡◌, ◌⊎◌, pos, length, if◌then◌else◌, IfOk, IfErr, Ok, Err};
ghost use Rattle.std.specs.Str.{is_utf8};
ghost use Rattle.string_functions.specs.Html.{html_of};
ghost use Rattle.plain_values.specs.Members.{within_length};
ghost use Rattle.plain_values.specs.Arithmetic.{in_64_bits, integer};
ghost use Rattle.plain_values.specs.Intval.{integer_of};
ghost use Rattle.plain_values.specs.Plain.{Plain, keys};
ghost use Rattle.plain_values.specs.Walks.{count_of};
ghost use Rattle.builtin_meaning.specs.Arguments as argument;
ghost use Rattle.builtin_meaning.specs.Values as spec;
ghost use Rattle.php_values.specs.View.{plain_of};
ghost use Rattle.php_builtins.specs.OfText.{made_by};

use crate::cases::{first_upper, lower, substr, trim, upper};
use crate::copying::repeat;
use crate::encodings::{Encoding, encode, html};
use crate::intval::text_integer;
use crate::joining::implode;
use crate::line_ends::breaks;
use crate::pieces::{explode, replace};
use php_values::{Array, Text, Value};
use plain_values::Fault;
use std::alloc::Global;
use string_functions::of_byte;
use value_operations::{number_of, text_of};

/// A function of one text, whose result is a text.
#[derive(Clone, Copy, Debug)]
pub(crate) enum OfText {
    /// `strtolower`.
    Lower,
    /// `strtoupper`.
    Upper,
    /// `ucfirst`.
    FirstUpper,
    /// `trim`, `ltrim` or `rtrim`: whether the left end is stripped, and whether the right one is.
    Trim(bool, bool),
    /// `nl2br`.
    Breaks,
    /// A function that writes each byte as some bytes.
    Encoded(Encoding),
}

// An argument as a text.
fn as_text(alloc: Global, value: &Value) -> Result<Text, Fault>
    ensures ok { IfOk result (λ t. argument.as_text (plain_of value.now) ≡ Ok t) }
    ensures err { IfErr result (λ fault. (fault ≡ Fault.Memory)
        ⊎ (argument.as_text (plain_of value.now) ≡ Err fault)) }
{
    match value {
        Value::Array(_) => Err(Fault::WrongType),
        Value::Null | Value::Flag(_) | Value::Int(_) | Value::Text(_) => Ok(text_of(alloc, value)?),
    }
}

// An argument as a number that may be left out.
fn as_optional_number(value: &Value) -> Result<Option<i64>, Fault>
    ensures { result ≡ argument.as_optional_number (plain_of value.now) }
{
    match value {
        Value::Null => Ok(None),
        Value::Flag(_) | Value::Int(_) | Value::Text(_) | Value::Array(_) => {
            match number_of(value) {
                Ok(number) => Ok(Some(number)),
                Err(fault) => Err(fault),
            }
        }
    }
}

// What the function makes of a text.
fn made_by(alloc: Global, function: OfText, text: &[u8]) -> Result<Text, Fault>
    ensures ok { IfOk result (λ t. within_length (made_by function text.now) ≡ Ok (Plain.text t)) }
    ensures err { IfErr result (λ fault. (fault ≡ Fault.Memory)
        ⊎ (within_length (made_by function text.now) ≡ Err fault)) }
{
    match function {
        OfText::Lower => lower(alloc, text),
        OfText::Upper => upper(alloc, text),
        OfText::FirstUpper => first_upper(alloc, text),
        OfText::Trim(left, right) => trim(alloc, left, right, text),
        OfText::Breaks => breaks(alloc, text),
        OfText::Encoded(encoding) => encode(alloc, encoding, text),
    }
}

/// A function of one text, of a value.
pub(crate) fn of_text(alloc: Global, function: OfText, a: &Value) -> Result<Value, Fault>
    ensures ok { IfOk result
        (λ v. spec.of_text (made_by function) (plain_of a.now) ≡ Ok (plain_of v)) }
    ensures err { IfErr result (λ fault. (fault ≡ Fault.Memory)
        ⊎ (spec.of_text (made_by function) (plain_of a.now) ≡ Err fault)) }
{
    let text = as_text(alloc, a)?;
    let made = made_by(alloc, function, text.as_slice())?;
    Ok(Value::Text(made))
}

/// `htmlspecialchars` of values.
pub(crate) fn htmlspecialchars(alloc: Global, a: &Value) -> Result<Value, Fault>
    ensures ok { IfOk result (λ v. spec.escaped (plain_of a.now) ≡ Ok (plain_of v)) }
    ensures err { IfErr result (λ fault. (fault ≡ Fault.Memory)
        ⊎ (spec.escaped (plain_of a.now) ≡ Err fault)) }
{
    let text = as_text(alloc, a)?;
    let made = escaped(alloc, text.as_slice())?;
    Ok(Value::Text(made))
}

/// `strlen` of values.
pub(crate) fn strlen(alloc: Global, a: &Value) -> Result<Value, Fault>
    ensures ok { IfOk result (λ v. spec.length_of (plain_of a.now) ≡ Ok (plain_of v)) }
    ensures err { IfErr result (λ fault. (fault ≡ Fault.Memory)
        ⊎ (spec.length_of (plain_of a.now) ≡ Err fault)) }
{
    let text = as_text(alloc, a)?;
    Ok(Value::Int(text.as_slice().len() as i64))
}

/// `count` of values.
pub(crate) fn count(a: &Value) -> Result<Value, Fault>
    ensures ok { IfOk result (λ v. count_of (plain_of a.now) ≡ Ok (plain_of v)) }
    ensures err { IfErr result (λ fault. count_of (plain_of a.now) ≡ Err fault) }
{
    match a {
        Value::Array(array) => Ok(Value::Int(counted(members(array))?)),
        Value::Null | Value::Flag(_) | Value::Int(_) | Value::Text(_) => Err(Fault::WrongType),
    }
}

/// `intval` of values.
pub(crate) fn intval(a: &Value) -> Result<Value, Fault>
    ensures ok { IfOk result (λ v. integer_of (plain_of a.now) ≡ Ok (plain_of v)) }
    ensures err { IfErr result (λ fault. integer_of (plain_of a.now) ≡ Err fault) }
{
    match a {
        Value::Null | Value::Flag(false) => Ok(Value::Int(0)),
        Value::Flag(true) => Ok(Value::Int(1)),
        Value::Int(number) => Ok(Value::Int(*number)),
        Value::Text(text) => Ok(Value::Int(text_integer(text.as_slice())?)),
        Value::Array(_) => Err(Fault::WrongType),
    }
}

/// `str_replace` of values.
pub(crate) fn str_replace(alloc: Global, a: &Value, b: &Value, c: &Value) -> Result<Value, Fault>
    ensures ok { IfOk result
        (λ v. spec.replaced (plain_of a.now) (plain_of b.now) (plain_of c.now) ≡ Ok (plain_of v)) }
    ensures err { IfErr result (λ fault. (fault ≡ Fault.Memory)
        ⊎ (spec.replaced (plain_of a.now) (plain_of b.now) (plain_of c.now) ≡ Err fault)) }
{
    let search = as_text(alloc, a)?;
    let with = as_text(alloc, b)?;
    let text = as_text(alloc, c)?;
    let made = replace(alloc, search.as_slice(), with.as_slice(), text.as_slice())?;
    Ok(Value::Text(made))
}

/// `substr` of values.
pub(crate) fn substr_of(alloc: Global, a: &Value, b: &Value, c: &Value) -> Result<Value, Fault>
    ensures ok { IfOk result
        (λ v. spec.cut (plain_of a.now) (plain_of b.now) (plain_of c.now) ≡ Ok (plain_of v)) }
    ensures err { IfErr result (λ fault. (fault ≡ Fault.Memory)
        ⊎ (spec.cut (plain_of a.now) (plain_of b.now) (plain_of c.now) ≡ Err fault)) }
{
    let text = as_text(alloc, a)?;
    let start = number_of(b)?;
    let len = as_optional_number(c)?;
    let made = substr(alloc, text.as_slice(), start, len)?;
    Ok(Value::Text(made))
}

/// `explode` of values.
pub(crate) fn explode_of(alloc: Global, a: &Value, b: &Value) -> Result<Value, Fault>
    ensures ok { IfOk result
        (λ v. spec.exploded (plain_of a.now) (plain_of b.now) ≡ Ok (plain_of v)) }
    ensures err { IfErr result (λ fault. (fault ≡ Fault.Memory)
        ⊎ (spec.exploded (plain_of a.now) (plain_of b.now) ≡ Err fault)) }
{
    let sep = as_text(alloc, a)?;
    let text = as_text(alloc, b)?;
    let made = explode(alloc, sep.as_slice(), &text)?;
    Ok(Value::Array(made))
}

/// `implode` of values.
pub(crate) fn implode_of(alloc: Global, a: &Value, b: &Value) -> Result<Value, Fault>
    ensures ok { IfOk result
        (λ v. spec.imploded (plain_of a.now) (plain_of b.now) ≡ Ok (plain_of v)) }
    ensures err { IfErr result (λ fault. (fault ≡ Fault.Memory)
        ⊎ (spec.imploded (plain_of a.now) (plain_of b.now) ≡ Err fault)) }
{
    let sep = as_text(alloc, a)?;
    match b {
        Value::Array(array) => {
            let made = implode(alloc, sep.as_slice(), array)?;
            Ok(Value::Text(made))
        }
        Value::Null | Value::Flag(_) | Value::Int(_) | Value::Text(_) => Err(Fault::WrongType),
    }
}

/// `str_repeat` of values.
pub(crate) fn str_repeat(alloc: Global, a: &Value, b: &Value) -> Result<Value, Fault>
    ensures ok { IfOk result
        (λ v. spec.repeated (plain_of a.now) (plain_of b.now) ≡ Ok (plain_of v)) }
    ensures err { IfErr result (λ fault. (fault ≡ Fault.Memory)
        ⊎ (spec.repeated (plain_of a.now) (plain_of b.now) ≡ Err fault)) }
{
    let text = as_text(alloc, a)?;
    let count = number_of(b)?;
    let made = repeat(alloc, text.as_slice(), count)?;
    Ok(Value::Text(made))
}

// Whether the bytes are UTF-8.
fn is_valid(text: &[u8]) -> bool
    ensures { result ≡ is_utf8 text.now }
{
    of_byte::is_utf8(text)
}

// `htmlspecialchars` of a text.
fn escaped(alloc: Global, text: &[u8]) -> Result<Text, Fault>
    ensures ok { IfOk result
        (λ t. (if is_utf8 text.now then within_length (html_of text.now) else Err Fault.NotUtf8)
        ≡ Ok (Plain.text t)) }
    ensures err { IfErr result (λ fault. (fault ≡ Fault.Memory)
        ⊎ ((if is_utf8 text.now then within_length (html_of text.now) else Err Fault.NotUtf8)
        ≡ Err fault)) }
{
    if is_valid(text) {
        return html(alloc, text);
    }
    Err(Fault::NotUtf8)
}

// How many members an array has.
fn members(array: &Array) -> usize
    ensures { result ≡ length (keys array.now) }
{
    array.pairs().len()
}

// A count as an integer.
#[tactic(auto, using(crate::proofs::CountLemmas::counted_over, crate::proofs::CountLemmas::counted_within))]
fn counted(len: usize) -> Result<i64, Fault>
    ensures { result ≡ in_64_bits (pos len) }
{
    if len > 9_223_372_036_854_775_807 {
        return Err(Fault::Float);
    }
    Ok(len as i64)
}
