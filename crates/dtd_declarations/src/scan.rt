//! What stands at the head of a slice.

ghost use Rattle.std.specs.Prelude.{◌≡◌, ◌<◌, ◌≤◌, length, IsTrue, nat_eq, not, ◌==◌};
ghost use Rattle.std.specs.List.{prefix_len};
ghost use Rattle.std.specs.Str.{str_eq_ignore_ascii_case};
ghost use Rattle.xml_text.specs.Characters as characters;
ghost use Rattle.xml_text.specs.Names as names;
ghost use Rattle.dtd_texts.specs.Heads as spec;

pub use text_base::{behind, front};
use xml_text::{begins_name, in_name, is_blank};

/// Whether the bytes begin with this text.
pub fn begins(bytes: &[u8], text: &[u8]) -> bool
    ensures value { result ≡ spec.begins text.now bytes.now }
    ensures long { IsTrue result → length text.now ≤ length bytes.now }
{
    bytes.starts_with(text)
}

/// Whether the byte is a quote.
pub fn is_quote(byte: u8) -> bool
    ensures { result ≡ spec.is_quote byte }
{
    byte == 34 || byte == 39
}

/// Whether two texts are the same but for the case of ASCII letters.
#[tactic(auto, using(crate::proofs::Letters::letters_decided))]
pub fn same_letters(text: &[u8], other: &[u8]) -> bool
    ensures { result ≡ str_eq_ignore_ascii_case text.now other.now }
{
    text.eq_ignore_ascii_case(&other)
}

/// Whether white space stands at the head.
pub fn head_is_blank(bytes: &[u8]) -> bool
    ensures value { result ≡ spec.head_is characters.is_blank bytes.now }
    ensures some { IsTrue result → 0 < length bytes.now }
{
    match bytes {
        [] => false,
        [byte, ..] => is_blank(*byte),
    }
}

/// Whether this byte stands at the head.
pub fn head_is(bytes: &[u8], wanted: u8) -> bool
    ensures value { result ≡ spec.head_is (nat_eq wanted) bytes.now }
    ensures some { IsTrue result → 0 < length bytes.now }
{
    match bytes {
        [] => false,
        [byte, ..] => wanted == *byte,
    }
}

/// How much white space stands at the head.
pub fn blanks_length(bytes: &[u8]) -> usize
    ensures value { result ≡ spec.blanks_length bytes.now }
    ensures within { result ≤ length bytes.now }
{
    bytes.iter().take_while(|byte| is_blank(**byte)).count()
}

/// How many bytes of a name stand at the head.
pub fn name_bytes_length(bytes: &[u8]) -> usize
    ensures value { result ≡ prefix_len names.in_name bytes.now }
    ensures within { result ≤ length bytes.now }
{
    bytes.iter().take_while(|byte| in_name(**byte)).count()
}

fn head_begins_name(bytes: &[u8]) -> bool
    ensures { result ≡ spec.head_is names.begins_name bytes.now }
{
    match bytes {
        [] => false,
        [byte, ..] => begins_name(*byte),
    }
}

/// How long the name at the head is; 0 where none stands there.
#[tactic(auto, unfolding(dtd_texts::specs::Heads::name_length))]
pub fn name_length(bytes: &[u8]) -> usize
    ensures value { result ≡ spec.name_length bytes.now }
    ensures within { result ≤ length bytes.now }
{
    if head_begins_name(bytes) {
        name_bytes_length(bytes)
    } else {
        0
    }
}

/// How many bytes stand before this one; all where it stands nowhere.
pub fn length_before(bytes: &[u8], end: u8) -> usize
    ensures value { result ≡ prefix_len (λ c. not (c == end)) bytes.now }
    ensures within { result ≤ length bytes.now }
{
    bytes.iter().take_while(|byte| **byte != end).count()
}
