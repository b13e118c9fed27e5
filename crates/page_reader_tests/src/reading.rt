//! What the readers put out over a page, in words.

use crate::token_words::{push_word, push_words};
use byte_readers::ByteReader;
use dtd_index::IndexedDtd;
use dtd_model::Dtd;
use dtd_reader::read_dtd;
use echoing_machine::{Echoing, RunReader};
use fst_core::Machine;
use io_edge::MemFiles;
use merged_reader::MergedReader;
use page_lexer::PageLexer;
use page_reader::PageReader;
use std::alloc::Global;
use std::test::Fail;
use text_base::{ByteRange, Bytes, NoMemory};
use way_reader::{PieceWays, WayReader};

/// The definition that a text spells.
pub fn definition(alloc: Global, text: &[u8]) -> Result<Dtd, Fail> {
    let mut held = Vec::new(alloc);
    held.push((
        Bytes::from_slice(alloc, b"d")?,
        Bytes::from_slice(alloc, text)?,
    ))?;
    let mut files = MemFiles::new(held, Vec::new(alloc));
    Ok(read_dtd(alloc, &mut files, ".", "d")?)
}

/// Whether all readers and the lexer put out these tokens over a page, each as a word and a space, by a definition and the
/// ways in which its pieces begin.
pub fn all_say(
    alloc: Global,
    indexed: &IndexedDtd<'_>,
    ways: &PieceWays,
    page: &[u8],
    words: &[u8],
) -> Result<bool, NoMemory> {
    let plain = read_words(alloc, &PageReader { indexed }, page)?;
    let merged = read_words(alloc, &MergedReader { indexed }, page)?;
    let by_ways = read_words(alloc, &WayReader { ways }, page)?;
    let mut lexer = PageLexer::new(alloc, indexed)?;
    let stepped = stepped_words(alloc, &mut lexer, page)?;
    let lexed = lexed_words(alloc, &mut lexer, page)?;
    let old_say = plain.as_slice() == words && merged.as_slice() == words;
    let readers_say = old_say && by_ways.as_slice() == words;
    Ok(readers_say && stepped.as_slice() == words && lexed.as_slice() == words)
}

// The tokens of a page by steps of the lexer, each as a word and a space.
fn stepped_words(alloc: Global, lexer: &mut PageLexer<'_>, page: &[u8]) -> Result<Bytes, NoMemory> {
    let mut words = Bytes::new(alloc);
    let mut state = lexer.first();
    for byte in page {
        let step = lexer.step(alloc, state, *byte)?;
        push_words(&mut words, step.emit)?;
        state = step.to;
    }
    push_words(&mut words, lexer.end(state))?;
    Ok(words)
}

// The tokens of a page by the lexer, each as a word and a space.
fn lexed_words(alloc: Global, lexer: &mut PageLexer<'_>, page: &[u8]) -> Result<Bytes, NoMemory> {
    let mut words = Bytes::new(alloc);
    for token in &lexer.tokens(alloc, page)? {
        push_word(&mut words, *token)?;
    }
    Ok(words)
}

// The tokens of a page, each as a word and a space; each step goes from a copy of the state before
// it.
fn read_words<R: ByteReader>(alloc: Global, reader: &R, page: &[u8]) -> Result<Bytes, NoMemory> {
    let mut words = Bytes::new(alloc);
    let mut state = reader.start(alloc)?;
    for byte in page {
        let from = reader.copy(alloc, &state)?;
        let step = reader.step(alloc, &from, *byte)?;
        push_words(&mut words, step.emit)?;
        state = step.to;
    }
    push_words(&mut words, reader.last(&state))?;
    Ok(words)
}

/// Whether all readers put out these tokens over a page, wherever it is cut in two: the second piece
/// is read from a copy of the state behind the first.
pub fn both_say_in_pieces(
    alloc: Global,
    dtd: &Dtd,
    page: &[u8],
    words: &[u8],
) -> Result<bool, NoMemory> {
    let indexed = IndexedDtd::new(alloc, dtd)?;
    let ways = PieceWays::of_pages(alloc, &indexed)?;
    for cut in 0..page.len() {
        let (first, second) = (&page[..cut], &page[cut..]);
        let plain = words_of_two(alloc, &PageReader { indexed: &indexed }, first, second)?;
        let merged = words_of_two(alloc, &MergedReader { indexed: &indexed }, first, second)?;
        let by_ways = words_of_two(alloc, &WayReader { ways: &ways }, first, second)?;
        if plain.as_slice() != words || merged.as_slice() != words || by_ways.as_slice() != words {
            return Ok(false);
        }
    }
    Ok(true)
}

// The tokens of two pieces, each as a word and a space.
fn words_of_two<R: ByteReader>(
    alloc: Global,
    reader: &R,
    first: &[u8],
    second: &[u8],
) -> Result<Bytes, NoMemory> {
    let mut words = Bytes::new(alloc);
    let start = reader.start(alloc)?;
    let between = feed(alloc, reader, start, first, &mut words)?;
    let copy = reader.copy(alloc, &between)?;
    let end = feed(alloc, reader, copy, second, &mut words)?;
    push_words(&mut words, reader.last(&end))?;
    Ok(words)
}

// Reads a piece: its tokens go behind the words, and the state behind it is given back.
fn feed<R: ByteReader>(
    alloc: Global,
    reader: &R,
    from: R::State,
    piece: &[u8],
    words: &mut Bytes,
) -> Result<R::State, NoMemory> {
    let mut state = from;
    for byte in piece {
        let step = reader.step(alloc, &state, *byte)?;
        push_words(words, step.emit)?;
        state = step.to;
    }
    Ok(state)
}

/// Behind each byte of two texts of one length that follow the same bytes: `=` where the reader
/// with few states is in one state behind both, and `.` where not.
pub fn sameness(
    alloc: Global,
    dtd: &Dtd,
    before: &[u8],
    left: &[u8],
    right: &[u8],
) -> Result<Bytes, NoMemory> {
    let indexed = IndexedDtd::new(alloc, dtd)?;
    let reader = MergedReader { indexed: &indexed };
    let mut signs = Bytes::new(alloc);
    let mut one = state_behind(alloc, &reader, before)?;
    let mut other = state_behind(alloc, &reader, before)?;
    for (a, b) in left.iter().zip(right.iter()) {
        one = reader.step(alloc, &one, *a)?.to;
        other = reader.step(alloc, &other, *b)?.to;
        signs.push(if one == other { b'=' } else { b'.' })?;
    }
    Ok(signs)
}

fn state_behind<R: ByteReader>(
    alloc: Global,
    reader: &R,
    text: &[u8],
) -> Result<R::State, NoMemory> {
    let mut state = reader.start(alloc)?;
    for byte in text {
        state = reader.step(alloc, &state, *byte)?.to;
    }
    Ok(state)
}

/// How many runs of bytes the reader tells behind a text, and how many moves its machine has there
/// by all bytes.
pub fn runs_and_moves(alloc: Global, dtd: &Dtd, text: &[u8]) -> Result<(usize, usize), NoMemory> {
    let indexed = IndexedDtd::new(alloc, dtd)?;
    let ways = PieceWays::of_pages(alloc, &indexed)?;
    let reader = WayReader { ways: &ways };
    let state = state_behind(alloc, &reader, text)?;
    let runs = runs_from(&reader, &state);
    let machine = Echoing { reader };
    let moves = machine.moves(alloc, &state, ByteRange { lo: 0, hi: 0xFF })?;
    Ok((runs, moves.len()))
}

// How many runs of bytes follow one another from the first byte to the last: a byte begins one
// where it stands behind the last of the run before it.
fn runs_from<R: RunReader>(reader: &R, state: &R::State) -> usize {
    let mut count = 0_usize;
    let mut behind = 0;
    for byte in 0..256_u16 {
        if byte == behind {
            count = count.saturating_add(1);
            behind = u16::from(reader.last_alike(state, byte as u8)) + 1;
        }
    }
    count
}
