// What a row wishes of the output.
use crate::calls::{QUIET, call};
use crate::derived::derives;
use crate::grammars::has_sentence;
use anyhow::Result;
use std::alloc::Global;
use text_base::Bytes;

/// What is wished of the output.
pub enum Wish {
    /// It is this, or what another such wish names.
    Out(Bytes),
    /// It begins so.
    Begins(Bytes),
    /// It is this, where each number in it is written `#`.
    Shape(Bytes),
    /// The numbers in it are above these, in turn.
    Above(Vec<u64>),
    /// It has so many bytes.
    Length(u64),
    /// It is a no, and the page in it begins so and is not valid by XHTML 1.0 Strict.
    Shown(Bytes),
    /// It is a grammar in which each nonterminal has one production, and this the one sentence.
    Sentence(Bytes),
    /// It is a grammar that derives this.
    Derives(Bytes),
    /// It is a grammar that does not derive this.
    Lacks(Bytes),
}

impl Drop for Wish {
    fn drop(self) {
        match self {
            Wish::Out(_) | Wish::Begins(_) | Wish::Shape(_) => {}
            Wish::Above(_) | Wish::Length(_) | Wish::Shown(_) => {}
            Wish::Sentence(_) | Wish::Derives(_) | Wish::Lacks(_) => {}
        }
    }
}

// A text with `#` in place of each number, and the numbers.
fn shape_of(alloc: Global, text: &[u8]) -> Result<(Vec<u8>, Vec<u64>)> {
    let mut shape = Vec::new(alloc);
    let mut numbers = Vec::new(alloc);
    let mut open = None;
    for byte in text {
        if byte.is_ascii_digit() {
            let before: u64 = open.take().unwrap_or(0);
            let digit = u64::from(byte.saturating_sub(b'0'));
            open = Some(before.saturating_mul(10).saturating_add(digit));
        } else {
            if let Some(number) = open.take() {
                shape.push(b'#')?;
                numbers.push(number)?;
            }
            shape.push(*byte)?;
        }
    }
    Ok((shape, numbers))
}

fn are_above(numbers: &[u64], least: &[u64]) -> bool {
    numbers.len() == least.len()
        && numbers
            .iter()
            .zip(least)
            .all(|(number, least)| number > least)
}

// The page that is shown in a no.
fn shown_page(out: &[u8]) -> Option<&[u8]> {
    let page = out.strip_prefix(b"no\npage ")?.strip_suffix(b"\n")?;
    let line = page.iter().position(|byte| *byte == b'\n')?;
    page.get(line.saturating_add(1)..)
}

// Whether the output shows a page that begins so, and is not valid.
fn shows(alloc: Global, out: &[u8], front: &[u8]) -> Result<bool> {
    let Some(page) = shown_page(out) else {
        return Ok(false);
    };
    let mut words = Vec::new(alloc);
    words.push(String::from_str(alloc, "page")?)?;
    words.push(String::from_str(alloc, "t.php")?)?;
    let mut files = Vec::new(alloc);
    files.push((
        Bytes::from_slice(alloc, b"t.php")?,
        Bytes::from_slice(alloc, page)?,
    ))?;
    let judged = call(alloc, &words, files.as_slice(), QUIET)?;
    Ok(page.starts_with(front) && judged.out.written() == b"invalid\n".as_slice())
}

// Whether the output meets a wish.
fn meets(alloc: Global, wish: &Wish, out: &[u8]) -> Result<bool> {
    match wish {
        Wish::Out(text) => Ok(out == text.as_slice()),
        Wish::Begins(text) => Ok(out.starts_with(text.as_slice())),
        Wish::Shape(text) => Ok(shape_of(alloc, out)?.0.as_slice() == text.as_slice()),
        Wish::Above(least) => Ok(are_above(shape_of(alloc, out)?.1.as_slice(), least.as_slice())),
        Wish::Length(length) => Ok(out.len() as u64 == *length),
        Wish::Shown(front) => shows(alloc, out, front.as_slice()),
        Wish::Sentence(text) => has_sentence(alloc, out, text.as_slice()),
        Wish::Derives(text) => derives(alloc, out, text.as_slice()),
        Wish::Lacks(text) => Ok(!derives(alloc, out, text.as_slice())?),
    }
}

/// Whether the output meets one of the wishes that name it, if there are such, and all others;
/// without wishes it has to be empty.
pub fn are_met(alloc: Global, wishes: &[Wish], out: &[u8]) -> Result<bool> {
    if wishes.is_empty() {
        return Ok(out.is_empty());
    }
    let mut is_named = false;
    let mut is_one = false;
    for wish in wishes {
        let is_met = meets(alloc, wish, out)?;
        if matches!(wish, Wish::Out(_)) {
            is_named = true;
            is_one = is_one || is_met;
        } else if !is_met {
            return Ok(false);
        }
    }
    Ok(is_one || !is_named)
}
