//! Names as they are written.

ghost use Rattle.std.specs.Prelude.{◌≡◌, ◌<◌, ◌++◌, ℕ, List, All, IfOk, OnOk};
ghost use Rattle.phpsa_texts.specs.Shown as spec;

use byte_stepping::decoded;
use std::alloc::Global;
use text_base::{Bytes, NoMemory, front};

/// How many bytes of a name are written at most.
pub const NAME_LIMIT: usize = 4096;

/// Whether the character is written as it is.
fn is_plain(c: char) -> bool
    ensures { result ≡ spec.is_plain c }
{
    let code = c as u32;
    code > 0x1F && code != 92 && !matches!(code, 0x7F..=0x9F) && !matches!(code, 0x2028..=0x2029)
}

/// How many bytes of a character stand behind its first byte (RFC 3629, 3).
fn more_of(byte: u8) -> usize
    ensures { result ≡ spec.more_of byte }
{
    if byte < 0x80 {
        0
    } else if byte < 0xE0 {
        1
    } else if byte < 0xF0 {
        2
    } else {
        3
    }
}

/// Whether the UTF-8 of a character that is written as it is stands at the head.
fn begins_plain(bytes: &[u8]) -> bool
    ensures { result ≡ spec.begins_plain bytes.now }
{
    match bytes {
        [] => false,
        [first, ..] => match decoded(front(bytes, 1 + more_of(*first))) {
            None => false,
            Some(c) => is_plain(c),
        },
    }
}

/// A name as it is written: bytes that are no UTF-8, characters that control or end lines, and
/// backslashes stand as `\xHH`, and what is behind `NAME_LIMIT` bytes is left out.
#[tactic(auto, unfolding(crate::specs::Shown::shown_name))]
pub fn shown_name(alloc: Global, name: &[u8]) -> Result<Bytes, NoMemory>
    ensures { IfOk result (λ text. text ≡ spec.shown_name name.now) }
{
    let mut text = Bytes::new(alloc);
    let mut rest = front(name, NAME_LIMIT);
    let mut more = 0;
    while let Some((first, others)) = rest.split_first() {
        if more > 0 {
            text.push(*first)?;
            more -= 1;
        } else if begins_plain(rest) {
            text.push(*first)?;
            more = more_of(*first);
        } else {
            append_escaped(alloc, &mut text, *first)?;
        }
        rest = others;
    }
    Ok(text)
}

/// A law: what is written of a name is the UTF-8 of characters none of which controls or ends a
/// line.
pub fn shown_names_are_printable()
    ensures { (name : List ℕ) → All (λ byte. byte < 256) name
        → spec.IsPrintable (spec.shown_name name) }
{}

fn append_escaped(alloc: Global, text: &mut Bytes, byte: u8) -> Result<(), NoMemory>
    ensures { OnOk result (text.new ≡ text.old ++ spec.escaped byte) }
{
    let digits = hex::encode(alloc, [byte].as_slice())?;
    text.append(b"\\x")?;
    text.append(digits.as_bytes())?;
    Ok(())
}
