//! The integer that a text begins with.

ghost use Rattle.std.specs.Prelude.{◌≡◌, ◌≤◌, ◌+◌, length, nat_lt, ◌++◌, Ok};
ghost use Rattle.std.specs.Char.{is_ascii_digit};
ghost use Rattle.std.specs.List.{prefix_len};
ghost use Rattle.plain_values.specs.Arithmetic.{in_64_bits};
ghost use Rattle.plain_values.specs.Intval as spec;
ghost use Rattle.php_builtins.specs.Front.{outcome as outcome_of};

use crate::cases::{behind, front};
use plain_values::{Fault, Numeric, numeric_of, skip_blanks, without_sign};

fn sign_length(body: &[u8]) -> usize
    ensures value { result ≡ length (spec.leading_sign body.now) }
    ensures short { result ≤ 1 }
{
    match body.split_first() {
        Some((first, _)) => {
            if *first == b'+' || *first == b'-' {
                1
            } else {
                0
            }
        }
        None => 0,
    }
}

// How many digits the text begins with.
fn digits_at(text: &[u8]) -> usize
    ensures count { result ≡ prefix_len is_ascii_digit text.now }
    ensures short { result ≤ length text.now }
{
    let mut count: usize = 0;
    let mut rest = text;
    while let Some((first, others)) = rest.split_first() {
        if !first.is_ascii_digit() {
            break;
        }
        count += 1;
        rest = others;
    }
    count
}

fn behind_digits(text: &[u8]) -> &[u8]
    ensures { result.now ≡ spec.behind_digits text.now }
{
    behind(text, digits_at(text))
}

fn behind_dot(text: &[u8]) -> &[u8]
    ensures { result.now ≡ spec.behind_dot text.now }
{
    match text.split_first() {
        Some((first, rest)) => { if *first == b'.' { rest } else { b"" } }
        None => text,
    }
}

fn behind_fraction(text: &[u8]) -> &[u8]
    ensures { result.now ≡ spec.behind_fraction text.now }
{
    match text.split_first() {
        Some((first, rest)) => {
            if *first == b'.' {
                behind_digits(rest)
            } else {
                text
            }
        }
        None => text,
    }
}

fn begins_with_digit(text: &[u8]) -> bool
    ensures { result ≡ spec.begins_with_digit text.now }
{
    match text.split_first() {
        Some((first, _)) => first.is_ascii_digit(),
        None => false,
    }
}

fn begins_exponent(text: &[u8]) -> bool
    ensures { result ≡ spec.begins_exponent text.now }
{
    match text.split_first() {
        Some((first, rest)) => {
            (*first == b'e' || *first == b'E') && begins_with_digit(without_sign(rest))
        }
        None => false,
    }
}

// Whether there is a digit before or behind the dot.
fn has_digit(unsigned: &[u8]) -> bool
    ensures { result ≡ nat_lt 0 (length (spec.leading_digits unsigned.now
        ++ spec.leading_digits (spec.behind_dot (spec.behind_digits unsigned.now)))) }
{
    let fraction = behind_dot(behind_digits(unsigned));
    let whole = digits_at(unsigned);
    let part = digits_at(fraction);
    whole + part > 0
}

fn is_exponent_form(unsigned: &[u8]) -> bool
    ensures { result ≡ spec.is_exponent_form unsigned.now }
{
    has_digit(unsigned) && begins_exponent(behind_fraction(behind_digits(unsigned)))
}

fn outcome(numeric: Numeric) -> Result<i64, Fault>
    ensures { result ≡ outcome_of numeric }
{
    match numeric {
        Numeric::Integer(number) => Ok(number),
        Numeric::Float | Numeric::Other => Err(Fault::Float),
    }
}

fn number_in_front(body: &[u8]) -> Result<i64, Fault>
    ensures { result ≡ in_64_bits (spec.number_in_front body.now) }
{
    let digits = digits_at(without_sign(body));
    if digits == 0 {
        return Ok(0);
    }
    let text = front(body, sign_length(body) + digits);
    outcome(numeric_of(text))
}

/// The integer that a text begins with, as `intval` has it (PHP manual): blanks in front are passed
/// over, and without digits it is 0. Faults Float exactly where it is out of range, or where the
/// text begins with a number in exponent form.
pub fn text_integer(text: &[u8]) -> Result<i64, Fault>
    ensures { result ≡ spec.text_integer text.now }
{
    let body = skip_blanks(text);
    if is_exponent_form(without_sign(body)) {
        return Err(Fault::Float);
    }
    number_in_front(body)
}
