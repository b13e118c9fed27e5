//! Characters by their bytes (RFC 3629, 4).

ghost use Rattle.std.specs.Prelude.{◌≡◌, ◌==◌, if◌then◌else◌, []};
ghost use Rattle.std.specs.Int as int;
ghost use Rattle.character_steps.specs.Bytes as spec;
ghost use Rattle.byte_stepping.specs.Views as views;

use std::str;
use xml_text::is_character;

/// The character of XML whose UTF-8 the bytes are; none where they are that of none, or of more
/// than one (XML 1.0, 2.2).
pub fn decoded(bytes: &[u8]) -> Option<char>
    ensures { result ≡ spec.decoded bytes.now }
{
    match str::from_utf8(bytes) {
        Ok(text) => only_character(text),
        Err(_) => None,
    }
}

fn only_character(text: &str) -> Option<char>
    ensures { result ≡ spec.decoded text.now }
{
    let mut characters = text.chars();
    match characters.next() {
        Some(c) => alone(c, characters.as_str().as_bytes()),
        None => None,
    }
}

// The character, where it is one of XML and nothing stands behind it.
fn alone(c: char, behind: &[u8]) -> Option<char>
    ensures { result ≡ views.alone c behind.now }
{
    match behind {
        [] => of_xml(c),
        [_, ..] => None,
    }
}

fn of_xml(c: char) -> Option<char>
    ensures { result ≡ views.alone c [] }
{
    if is_character(c) { Some(c) } else { None }
}

/// Whether the bytes are the first of a character, but not all; none are such bytes too.
#[tactic(auto, unfolding(character_steps::specs::Bytes::is_begun))]
pub fn is_begun(bytes: &[u8]) -> bool
    ensures { result ≡ spec.is_begun bytes.now }
{
    match bytes {
        [] => true,
        [a] => is_in_range(0xC2, 0xF4, *a),
        [a, b] => is_in_range(0xE0, 0xF4, *a) && is_second(*a, *b),
        [a, b, c] => is_in_range(0xF0, 0xF4, *a) && is_second(*a, *b) && continues(*c),
        [_, _, _, _, ..] => false,
    }
}

fn is_in_range(low: u8, high: u8, byte: u8) -> bool
    ensures { result ≡ int.is_in_range low high byte }
{
    low <= byte && byte <= high
}

// A byte behind the first of a character.
fn continues(byte: u8) -> bool
    ensures { result ≡ spec.continues byte }
{
    is_in_range(0x80, 0xBF, byte)
}

// The second byte of a character of three or four bytes, by its first.
fn is_second(first: u8, byte: u8) -> bool
    ensures { result ≡ spec.is_second first byte }
{
    is_in_range(least_second(first), most_second(first), byte)
}

fn least_second(first: u8) -> u8
    ensures { result ≡ (if first == 0xE0 then 0xA0 else (if first == 0xF0 then 0x90 else 0x80)) }
{
    match first {
        0xE0 => 0xA0,
        0xF0 => 0x90,
        _ => 0x80,
    }
}

fn most_second(first: u8) -> u8
    ensures { result ≡ (if first == 0xED then 0x9F else (if first == 0xF4 then 0x8F else 0xBF)) }
{
    match first {
        0xED => 0x9F,
        0xF4 => 0x8F,
        _ => 0xBF,
    }
}
