//! Words and names in characters.

ghost use Rattle.std.specs.Prelude.{◌≡◌, take};
ghost use Rattle.std.specs.Option.{option_copied};
ghost use Rattle.std.specs.Str.{str_to_ascii_lowercase};
ghost use Rattle.std.specs.Prelude.{IfOk};
ghost use Rattle.page_model.specs.Reading.{name_at};
ghost use Rattle.page_rules.specs.Views.{seen_pair};
ghost use Rattle.piece_reasons.specs.Openers as spec;
ghost use Rattle.piece_reasons.specs.Tags as tags;

use page_rules::{Class, begins_name, is_word_in_any_case, split};
use std::alloc::Global;
use text_base::NoMemory;

/// A name, and what stands behind it (XML 1.0, 2.3).
pub fn name(cs: &[char]) -> Option<(&[char], &[char])>
    ensures { seen_pair result ≡ name_at cs.now }
{
    let (first, _) = cs.split_first()?;
    if begins_name(*first) {
        Some(split(cs, Class::InName))
    } else {
        None
    }
}

/// What is left from the first occurrence of the word on; none where it does not occur.
pub fn from_first<'c>(cs: &'c [char], word: &[char]) -> Option<&'c [char]>
    ensures { option_copied result ≡ spec.from_first word.now cs.now }
{
    let mut left = cs;
    while let Some((_, rest)) = left.split_first() {
        if left.starts_with(word) {
            return Some(left);
        }
        left = rest;
    }
    None
}

/// Whether the word of a document type declaration stands there, in letters of any case.
pub fn is_doctype_word(cs: &[char]) -> bool
    ensures { result ≡ spec.is_doctype_word cs.now }
{
    is_word_in_any_case(front(cs, 7), b"DOCTYPE")
}

// The first so many characters; all where there are fewer.
fn front(cs: &[char], count: usize) -> &[char]
    ensures { result.now ≡ take count cs.now }
{
    if count < cs.len() { &cs[..count] } else { cs }
}

/// Whether `>` stands at the head.
pub fn begins_close(cs: &[char]) -> bool
    ensures { result ≡ tags.begins_close cs.now }
{
    match cs.split_first() {
        None => false,
        Some((c, _)) => *c == '>',
    }
}

/// The characters with their capital letters of ASCII as small ones.
pub fn lowered(alloc: Global, cs: &[char]) -> Result<Vec<char>, NoMemory>
    ensures { IfOk result (λ v. v.items ≡ str_to_ascii_lowercase cs.now) }
{
    let mut lower = Vec::new(alloc);
    for c in cs {
        lower.push(c.to_ascii_lowercase())?;
    }
    Ok(lower)
}
