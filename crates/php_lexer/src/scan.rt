//! What stands at the head of a slice.

ghost use Rattle.std.specs.Prelude.{◌≡◌, ◌<◌, ◌≤◌, length, IsTrue};
ghost use Rattle.std.specs.List.{prefix_len};
ghost use Rattle.lexical_grammar.specs.Characters as spec;

use lexical_grammar::{is_digit, is_gap, is_high, is_line_end, is_name_byte, is_name_start};
pub use text_base::{behind, front};

/// Whether the bytes begin with this text.
pub fn begins(bytes: &[u8], text: &[u8]) -> bool
    ensures value { result ≡ spec.begins text.now bytes.now }
    ensures long { IsTrue result → length text.now ≤ length bytes.now }
{
    bytes.starts_with(text)
}

/// Whether a digit stands at the head.
pub fn head_is_digit(bytes: &[u8]) -> bool
    ensures value { result ≡ spec.head_is spec.is_digit bytes.now }
    ensures some { IsTrue result → 0 < length bytes.now }
{
    match bytes {
        [] => false,
        [byte, ..] => is_digit(*byte),
    }
}

/// Whether a byte of a name stands at the head.
pub fn head_is_name_byte(bytes: &[u8]) -> bool
    ensures value { result ≡ spec.head_is spec.is_name_byte bytes.now }
    ensures some { IsTrue result → 0 < length bytes.now }
{
    match bytes {
        [] => false,
        [byte, ..] => is_name_byte(*byte),
    }
}

fn head_is_name_start(bytes: &[u8]) -> bool
    ensures value { result ≡ spec.head_is spec.is_name_start bytes.now }
    ensures some { IsTrue result → 0 < length bytes.now }
{
    match bytes {
        [] => false,
        [byte, ..] => is_name_start(*byte),
    }
}

/// Whether LF or CR stands at the head.
pub fn head_is_line_end(bytes: &[u8]) -> bool
    ensures value { result ≡ spec.head_is spec.is_line_end bytes.now }
    ensures some { IsTrue result → 0 < length bytes.now }
{
    match bytes {
        [] => false,
        [byte, ..] => is_line_end(*byte),
    }
}

/// How long the run of digits at the head is.
pub fn digits_length(bytes: &[u8]) -> usize
    ensures value { result ≡ spec.digits_length bytes.now }
    ensures within { result ≤ length bytes.now }
{
    bytes.iter().take_while(|byte| is_digit(**byte)).count()
}

/// How many bytes of a name stand at the head.
pub fn name_bytes_length(bytes: &[u8]) -> usize
    ensures value { result ≡ prefix_len spec.is_name_byte bytes.now }
    ensures within { result ≤ length bytes.now }
{
    bytes.iter().take_while(|byte| is_name_byte(**byte)).count()
}

/// How long the name at the head is; 0 where none stands there.
pub fn name_length(bytes: &[u8]) -> usize
    ensures value { result ≡ spec.name_length bytes.now }
    ensures within { result ≤ length bytes.now }
{
    if head_is_name_start(bytes) {
        name_bytes_length(bytes)
    } else {
        0
    }
}

/// How many spaces and tabs stand at the head.
pub fn gap_length(bytes: &[u8]) -> usize
    ensures value { result ≡ prefix_len spec.is_gap bytes.now }
    ensures within { result ≤ length bytes.now }
{
    bytes.iter().take_while(|byte| is_gap(**byte)).count()
}

/// How long the line end at the head is; 0 where none stands there.
pub fn newline_length(bytes: &[u8]) -> usize
    ensures value { result ≡ spec.newline_length bytes.now }
    ensures within { result ≤ length bytes.now }
{
    if begins(bytes, b"\r\n") {
        2
    } else if head_is_line_end(bytes) {
        1
    } else {
        0
    }
}
