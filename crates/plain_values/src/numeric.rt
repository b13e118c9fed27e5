//! Texts that are numbers.

ghost use Rattle.std.specs.Prelude.{◌≡◌, ◌<◌, ◌++◌, ℕ, true, length, reverse, MatchOption};
ghost use Rattle.plain_values.specs.Numeric as spec;
ghost use Rattle.plain_values.specs.Parts.{IsWhole, AreAround};
ghost use Rattle.std.specs.List.{position};
ghost use Rattle.std.specs.Str.Parse.{without_leading_sign};

/// What a text is as a number (PHP manual, "Numeric strings").
#[derive(Clone, Copy, Debug, PartialEq, Eq)]
pub enum Numeric {
    /// An integer of 64 bits.
    Integer(i64),
    /// A number with a fraction or an exponent, or an integer out of range.
    Float,
    /// No number.
    Other,
}

/// Reads a text as a number.
pub fn numeric_of(text: &[u8]) -> Numeric
    ensures { result ≡ spec.numeric text.now }
{
    let body = trimmed(text);
    let unsigned = without_sign(body);
    if is_numeral(unsigned) {
        integer(body)
    } else if is_unsigned_number(unsigned) {
        Numeric::Float
    } else {
        Numeric::Other
    }
}

// The integer that digits behind a sign or none write, or a float where it is out of range.
fn integer(body: &[u8]) -> Numeric
    requires { spec.is_numeral (without_leading_sign body.now) ≡ true }
    ensures { result ≡ spec.numeric_body body.now }
{
    match str::from_utf8(body) {
        Ok(text) => match text.parse::<i64>() {
            Ok(number) => Numeric::Integer(number),
            Err(_) => Numeric::Float,
        },
        Err(_) => unreachable!(),
    }
}

fn is_blank(byte: u8) -> bool
    ensures { result ≡ spec.is_blank byte }
{
    byte == b' ' || byte == b'\t' || byte == b'\n' || byte == b'\r' || byte == 0x0b || byte == 0x0c
}

/// The text without the blanks that it begins with (PHP manual, "Numeric strings": WHITESPACES).
pub fn skip_blanks(text: &[u8]) -> &[u8]
    ensures { result.now ≡ spec.skip_blanks text.now }
{
    let mut rest = text;
    while let Some((first, others)) = rest.split_first() {
        if !is_blank(*first) {
            break;
        }
        rest = others;
    }
    rest
}

fn skip_blanks_behind(text: &[u8]) -> &[u8]
    ensures { reverse result.now ≡ spec.skip_blanks (reverse text.now) }
{
    let mut rest = text;
    while let Some((last, others)) = rest.split_last() {
        if !is_blank(*last) {
            break;
        }
        rest = others;
    }
    rest
}

fn trimmed(text: &[u8]) -> &[u8]
    ensures { result.now ≡ spec.trimmed text.now }
{
    skip_blanks_behind(skip_blanks(text))
}

/// The text without the sign that it begins with, if it does.
pub fn without_sign(body: &[u8]) -> &[u8]
    ensures { result.now ≡ without_leading_sign body.now }
{
    match body.split_first() {
        Some((b'-' | b'+', rest)) => rest,
        _ => body,
    }
}

fn are_digits(digits: &[u8]) -> bool
    ensures { result ≡ spec.are_digits digits.now }
{
    digits.iter().all(|byte| byte.is_ascii_digit())
}

fn is_numeral(digits: &[u8]) -> bool
    ensures { result ≡ spec.is_numeral digits.now }
{
    !digits.is_empty() && are_digits(digits)
}

// What stands before and after the first dot.
fn around_dot(text: &[u8]) -> Option<(&[u8], &[u8])>
    ensures { MatchOption result (IsWhole spec.is_dot text.now)
        (λ parts. AreAround spec.is_dot text.now parts.0.now parts.1.now) }
{
    match dot_in(text) {
        None => None,
        Some(at) => Some((&text[..at], &text[at + 1..])),
    }
}

fn dot_in(text: &[u8]) -> Option<usize>
    ensures { result ≡ position spec.is_dot text.now }
{
    text.iter().position(|byte| *byte == b'.')
}

// What stands before and after the first mark of an exponent.
fn around_exponent_mark(text: &[u8]) -> Option<(&[u8], &[u8])>
    ensures { MatchOption result (IsWhole spec.is_exponent_mark text.now)
        (λ parts. AreAround spec.is_exponent_mark text.now parts.0.now parts.1.now) }
{
    match exponent_mark_in(text) {
        None => None,
        Some(at) => Some((&text[..at], &text[at + 1..])),
    }
}

fn exponent_mark_in(text: &[u8]) -> Option<usize>
    ensures { result ≡ position spec.is_exponent_mark text.now }
{
    text.iter().position(|byte| *byte == b'e' || *byte == b'E')
}

fn is_mantissa(text: &[u8]) -> bool
    ensures { result ≡ spec.is_mantissa text.now }
{
    match around_dot(text) {
        None => is_numeral(text),
        Some((whole, fraction)) => are_numeral(whole, fraction),
    }
}

// Whether two texts are a numeral together.
fn are_numeral(front: &[u8], back: &[u8]) -> bool
    ensures { result ≡ spec.is_numeral (front.now ++ back.now) }
{
    are_digits(front) && are_digits(back) && !(front.is_empty() && back.is_empty())
}

fn is_unsigned_number(text: &[u8]) -> bool
    ensures { result ≡ spec.is_unsigned_number text.now }
{
    match around_exponent_mark(text) {
        None => is_mantissa(text),
        Some((mantissa, exponent)) => is_mantissa(mantissa) && is_numeral(without_sign(exponent)),
    }
}
