//! Sentences of a grammar, listed height by height, and whether one is nested, without sums.

use crate::grammars::letter;
use std::alloc::Global;
use text_base::NoMemory;

/// How many sentences of a nonterminal are listed, and how long they are at most.
const SENTENCES: usize = 60;

const LETTERS: usize = 40;

/// Whether each end tag answers the last start tag that is open, and no tag is left.
pub fn is_nested(alloc: Global, sentence: &[u8]) -> Result<bool, NoMemory> {
    let mut open = Vec::new(alloc);
    for tag in sentence {
        match *tag {
            b'p' => open.push(b'P')?,
            b'b' => open.push(b'B')?,
            b'P' | b'B' => {
                if open.pop() != Some(*tag) {
                    return Ok(false);
                }
            }
            _ => {}
        }
    }
    Ok(open.is_empty())
}

/// The sentences of a symbol, where those of nonterminals are known; `.` has the empty one.
fn sentences_of(
    alloc: Global,
    known: &[Vec<Vec<u8>>],
    symbol: u8,
) -> Result<Vec<Vec<u8>>, NoMemory> {
    let mut sentences = Vec::new(alloc);
    match symbol {
        b'.' => sentences.push(Vec::new(alloc))?,
        b'0'..=b'9' => {
            if let Some(found) = known.get(usize::from(symbol).saturating_sub(48)) {
                for sentence in found {
                    sentences.push(sentence.as_slice().to_vec(alloc)?)?;
                }
            }
        }
        _ => sentences.push([symbol].as_slice().to_vec(alloc)?)?,
    }
    Ok(sentences)
}

/// Adds what one sentence makes with each of others behind it.
fn add_joined(
    alloc: Global,
    sentences: &mut Vec<Vec<u8>>,
    first: &[u8],
    seconds: &[Vec<u8>],
) -> Result<(), NoMemory> {
    for second in seconds {
        if sentences.len() < SENTENCES && first.len().saturating_add(second.len()) <= LETTERS {
            let mut joined = first.to_vec(alloc)?;
            joined.extend_from_slice(second.as_slice())?;
            sentences.push(joined)?;
        }
    }
    Ok(())
}

/// The sentences of one height more.
fn higher(
    alloc: Global,
    text: &[u8],
    known: &[Vec<Vec<u8>>],
) -> Result<Vec<Vec<Vec<u8>>>, NoMemory> {
    let mut lists = Vec::new(alloc);
    for _ in 0..10 {
        lists.push(Vec::new(alloc))?;
    }
    for number in 0..text.len() / 3 {
        let place = number.wrapping_mul(3);
        let left = usize::from(letter(text, place)).saturating_sub(48);
        let firsts = sentences_of(alloc, known, letter(text, place.wrapping_add(1)))?;
        let seconds = sentences_of(alloc, known, letter(text, place.wrapping_add(2)))?;
        if let Some(list) = lists.get_mut(left) {
            for first in &firsts {
                add_joined(alloc, list, first.as_slice(), seconds.as_slice())?;
            }
        }
    }
    Ok(lists)
}

/// Whether some sentence of 0 that is listed up to a height is not nested.
pub fn lists_wrong(alloc: Global, text: &[u8], height: u32) -> Result<bool, NoMemory> {
    let mut lists = Vec::new(alloc);
    for _ in 0..height {
        lists = higher(alloc, text, lists.as_slice())?;
    }
    if let Some(sentences) = lists.first() {
        for sentence in sentences {
            if !is_nested(alloc, sentence.as_slice())? {
                return Ok(true);
            }
        }
    }
    Ok(false)
}
