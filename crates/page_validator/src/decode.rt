//! The characters of a page.

ghost use Rattle.std.specs.Prelude.{◌≡◌, ◌≤◌, IfOk, length};
ghost use Rattle.std.specs.Str.{chars};
ghost use Rattle.page_validator.specs.Walks.{IsDecoded};

use std::alloc::Global;
use std::str;
use text_base::NoMemory;

/// The characters that the bytes are the UTF-8 of; none where they are not UTF-8 (XML 1.0, 4.3.3).
pub fn decoded(alloc: Global, page: &[u8]) -> Result<Option<Vec<char>>, NoMemory>
    ensures { IfOk result (IsDecoded page.now) }
{
    match str::from_utf8(page) {
        Ok(text) => Ok(Some(characters(alloc, text)?)),
        Err(_) => Ok(None),
    }
}

fn characters(alloc: Global, text: &str) -> Result<Vec<char>, NoMemory>
    ensures { IfOk result (λ cs. cs.items ≡ chars text.now) }
{
    let cs = text.chars().collect(alloc)?;
    Ok(cs)
}

/// Where the first bytes that are not UTF-8 begin.
pub fn first_fault(page: &[u8]) -> usize
    ensures { result ≤ length page.now }
{
    match str::from_utf8(page) {
        Ok(_) => page.len(),
        Err(error) => error.valid_up_to().min(page.len()),
    }
}

/// How many bytes the UTF-8 of the characters has, at most so many.
pub fn byte_len(cs: &[char], most: usize) -> usize
    ensures { result ≤ most }
{
    let mut total = 0usize;
    for c in cs {
        total = total.saturating_add(c.len_utf8());
    }
    total.min(most)
}
