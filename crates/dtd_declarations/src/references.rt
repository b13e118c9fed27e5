//! References in a text (XML 1.0, 4.1).

ghost use Rattle.std.specs.Prelude.{◌≡◌, ◌<◌, ◌≤◌, ◌+◌, ℕ, length, MatchOption, IsTrue, true, false, take, drop, bytes_eq, nat_lt, ◌||◌, List};
ghost use Rattle.std.specs.Char.{is_ascii_digit, is_ascii_hexdigit, digit_value};
ghost use Rattle.std.specs.List.{list_all, prefix_len};
ghost use Rattle.xml_text.specs.Characters as characters;
ghost use Rattle.dtd_model.specs.References.{number_written};
ghost use Rattle.dtd_texts.specs.Heads as spec;

use crate::scan::{begins, behind, front, head_is, name_length};
use xml_text::is_character;

const LAST_CHARACTER: u32 = 0x10_FFFF;

// How long the name is between a sign and a semicolon; 0 where they do not stand there.
#[tactic(auto, unfolding(dtd_texts::specs::Heads::named_length))]
fn named_length(bytes: &[u8], sign: u8) -> usize
    ensures value { result ≡ spec.named_length sign bytes.now }
    ensures within { 0 < result → 2 + result ≤ length bytes.now }
{
    if !head_is(bytes, sign) {
        return 0;
    }
    let n = name_length(behind(bytes, 1));
    if head_is(behind(bytes, 1 + n), b';') {
        n
    } else {
        0
    }
}

/// How long the name is in the parameter entity reference at the head, `%name;`; 0 where none
/// stands there.
pub fn reference_length(bytes: &[u8]) -> usize
    ensures value { result ≡ spec.reference_length bytes.now }
    ensures within { 0 < result → 2 + result ≤ length bytes.now }
{
    named_length(bytes, b'%')
}

/// How long the name is in the general entity reference at the head, `&name;`; 0 where none
/// stands there.
pub fn entity_length(bytes: &[u8]) -> usize
    ensures value { result ≡ spec.entity_length bytes.now }
    ensures within { 0 < result → 2 + result ≤ length bytes.now }
{
    named_length(bytes, b'&')
}

fn digit(byte: u8) -> u32
    ensures value { is_ascii_hexdigit byte ≡ true → result ≡ digit_value byte }
    ensures small { result < 16 }
{
    match byte {
        b'0'..=b'9' => u32::from(byte - b'0'),
        b'A'..=b'F' => u32::from(byte - b'A') + 10,
        b'a'..=b'f' => u32::from(byte - b'a') + 10,
        _ => 0,
    }
}

// The number that hexadecimal digits write in this base, or another that is over all characters.
fn number(base: u32, digits: &[u8]) -> u32
    requires base { (1 ≤ base) × (base ≤ 16) }
    requires digits { list_all is_ascii_hexdigit digits.now ≡ true }
    ensures same { characters.is_character result
        ≡ characters.is_character (number_written base 0 digits.now) }
    ensures value { characters.is_character result ≡ true → result
        ≡ number_written base 0 digits.now }
{
    let mut so_far = 0;
    let mut rest = digits;
    while let Some((first, others)) = rest.split_first() {
        if so_far > LAST_CHARACTER {
            return so_far;
        }
        so_far = so_far * base + digit(*first);
        rest = others;
    }
    so_far
}

// The character of this number, where XML has it.
fn character_of(number: u32) -> Option<char>
    ensures { MatchOption result (characters.is_character number ≡ false)
        (λ c. (c ≡ number) × (characters.is_character number ≡ true)) }
{
    match char::from_u32(number) {
        Some(c) if is_character(c) => Some(c),
        _ => None,
    }
}

// How many hexadecimal digits stand at the head.
fn hexadecimal_digits(bytes: &[u8]) -> usize
    ensures value { result ≡ prefix_len is_ascii_hexdigit bytes.now }
    ensures within { result ≤ length bytes.now }
{
    bytes
        .iter()
        .take_while(|byte| byte.is_ascii_hexdigit())
        .count()
}

// How many decimal digits stand at the head.
fn decimal_digits(bytes: &[u8]) -> usize
    ensures value { result ≡ prefix_len is_ascii_digit bytes.now }
    ensures within { result ≤ length bytes.now }
{
    bytes
        .iter()
        .take_while(|byte| byte.is_ascii_digit())
        .count()
}

// The hexadecimal digits of the character reference at the head, `&#x..;`: the character, and how
// many digits there are.
#[tactic(auto, using(crate::proofs::Numbers::all_hexadecimal), unfolding(dtd_texts::specs::Heads::digits_length))]
fn hexadecimal(bytes: &[u8]) -> Option<(char, usize)>
    ensures { MatchOption result (spec.hexadecimal_length bytes.now ≡ 0) (λ found.
        (found.0 ≡ number_written 16 0
        (take (spec.hexadecimal_length bytes.now) (drop 3 bytes.now)))
        × (found.1 ≡ spec.hexadecimal_length bytes.now) × (0 < found.1)
        × (found.1 + 4 ≤ length bytes.now)) }
{
    let digits = behind(bytes, 3);
    let n = hexadecimal_digits(digits);
    if n == 0 {
        return None;
    }
    if !head_is(behind(bytes, 3 + n), b';') {
        return None;
    }
    match character_of(number(16, front(digits, n))) {
        Some(c) => Some((c, n)),
        None => None,
    }
}

// The decimal digits of the character reference at the head, `&#..;`: the character, and how many
// digits there are.
#[tactic(auto, using(crate::proofs::Numbers::all_decimal), unfolding(dtd_texts::specs::Heads::digits_length))]
fn decimal(bytes: &[u8]) -> Option<(char, usize)>
    ensures { MatchOption result (spec.decimal_length bytes.now ≡ 0) (λ found.
        (found.0 ≡ number_written 10 0 (take (spec.decimal_length bytes.now) (drop 2 bytes.now)))
        × (found.1 ≡ spec.decimal_length bytes.now) × (0 < found.1)
        × (found.1 + 3 ≤ length bytes.now)) }
{
    let digits = behind(bytes, 2);
    let n = decimal_digits(digits);
    if n == 0 {
        return None;
    }
    if !head_is(behind(bytes, 2 + n), b';') {
        return None;
    }
    match character_of(number(10, front(digits, n))) {
        Some(c) => Some((c, n)),
        None => None,
    }
}

/// The character reference at the head: the character, and how many bytes the reference has.
#[tactic(auto, unfolding(dtd_texts::specs::Heads::character_length, dtd_texts::specs::Heads::character_number))]
pub fn character(bytes: &[u8]) -> Option<(char, usize)>
    ensures { MatchOption result (spec.character_length bytes.now ≡ 0) (λ found.
        (found.0 ≡ spec.character_number bytes.now) × (found.1 ≡ spec.character_length bytes.now)
        × (0 < found.1) × (found.1 ≤ length bytes.now)) }
{
    if begins(bytes, b"&#x") {
        return match hexadecimal(bytes) {
            Some((c, n)) => Some((c, n + 4)),
            None => None,
        };
    }
    if begins(bytes, b"&#") {
        return match decimal(bytes) {
            Some((c, n)) => Some((c, n + 3)),
            None => None,
        };
    }
    None
}

// Whether a character reference stands at the head.
fn begins_character(bytes: &[u8]) -> bool
    ensures { result ≡ nat_lt 0 (spec.character_length bytes.now) }
{
    match character(bytes) {
        Some(_) => true,
        None => false,
    }
}

// Whether a reference to a character or a general entity stands at the head.
fn begins_reference(bytes: &[u8]) -> bool
    ensures { result ≡ (nat_lt 0 (spec.character_length bytes.now) || nat_lt 0
        (spec.entity_length bytes.now)) }
{
    begins_character(bytes) || 0 < entity_length(bytes)
}

/// Whether the value of a general entity holds no `<`, and each `&` in it begins a character
/// reference.
#[tactic(auto, unfolding(dtd_texts::specs::Heads::has_references))]
pub fn is_plain_value(value: &[u8]) -> bool
    ensures { result ≡ spec.is_plain_value value.now }
{
    let mut rest = value;
    while let Some((first, others)) = rest.split_first() {
        if *first == b'<' || (*first == b'&' && !begins_character(rest)) {
            return false;
        }
        rest = others;
    }
    true
}

/// Whether the value of an attribute holds no `<`, and each `&` in it begins a reference (XML 1.0,
/// 2.3, AttValue).
#[tactic(auto, unfolding(dtd_texts::specs::Heads::has_references))]
pub fn is_attribute_value(value: &[u8]) -> bool
    ensures { result ≡ spec.is_attribute_value value.now }
{
    let mut rest = value;
    while let Some((first, others)) = rest.split_first() {
        if *first == b'<' || (*first == b'&' && !begins_reference(rest)) {
            return false;
        }
        rest = others;
    }
    true
}
