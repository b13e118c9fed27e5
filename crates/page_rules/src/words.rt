//! Words in a row of characters.

ghost use Rattle.std.specs.Prelude.{◌≡◌, bytes_eq};
ghost use Rattle.std.specs.List.{list_all};
ghost use Rattle.std.specs.Str.{str_eq_ignore_ascii_case};
ghost use Rattle.xml_text.specs.Names as names;
ghost use Rattle.dtd_model.specs.References as references;

use crate::{begins_name, in_name};
use text_base::Bytes;

/// Whether there is a character.
pub fn is_some(cs: &[char]) -> bool
    ensures { result ≡ references.is_some cs.now }
{
    match cs {
        [] => false,
        [_, ..] => true,
    }
}

/// Whether these are a name (XML 1.0, 2.3).
pub fn is_name(cs: &[char]) -> bool
    ensures { result ≡ names.is_name cs.now }
{
    match cs {
        [] => false,
        [first, rest @ ..] => begins_name(*first) && are_in_name(rest),
    }
}

/// Whether these are a name token (XML 1.0, 2.3).
pub fn is_name_token(cs: &[char]) -> bool
    ensures { result ≡ names.is_name_token cs.now }
{
    match cs {
        [] => false,
        [first, rest @ ..] => in_name(*first) && are_in_name(rest),
    }
}

fn are_in_name(cs: &[char]) -> bool
    ensures { result ≡ list_all names.in_name cs.now }
{
    cs.iter().all(|c| in_name(*c))
}

/// Whether these are the characters of the ASCII word.
pub fn is_word(cs: &[char], word: &[u8]) -> bool
    ensures { result ≡ bytes_eq cs.now word.now }
{
    let mut rest = cs;
    for byte in word {
        match rest.split_first() {
            None => return false,
            Some((c, others)) => {
                if u32::from(*c) != u32::from(*byte) {
                    return false;
                }
                rest = others;
            }
        }
    }
    rest.is_empty()
}

/// Whether these are the letters of the ASCII word, in any case.
pub fn is_word_in_any_case(cs: &[char], word: &[u8]) -> bool
    ensures { result ≡ str_eq_ignore_ascii_case cs.now word.now }
{
    let mut rest = cs;
    for byte in word {
        match rest.split_first() {
            None => return false,
            Some((c, others)) => {
                if u32::from(c.to_ascii_lowercase()) != u32::from(byte.to_ascii_lowercase()) {
                    return false;
                }
                rest = others;
            }
        }
    }
    rest.is_empty()
}

/// Whether this name, which is ASCII, has these characters.
pub fn is_named(name: &Bytes, cs: &[char]) -> bool
    ensures { result ≡ bytes_eq name.now cs.now }
{
    let mut rest = cs;
    for byte in name.as_slice() {
        match rest.split_first() {
            None => return false,
            Some((c, others)) => {
                if u32::from(*c) != u32::from(*byte) {
                    return false;
                }
                rest = others;
            }
        }
    }
    rest.is_empty()
}
