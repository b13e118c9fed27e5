//! The tokens of a page as docs/pages.md states them: lawful pieces in turn, cut one by one at the
//! head of its characters, and where none goes on one bad token. No byte reader takes part in it.

use crate::token_words::push_word;
use dtd_index::IndexedDtd;
use dtd_model::Dtd;
use page_rules::{Piece, Place, Taken, is_right, piece_at, tokens_of};
use std::alloc::Global;
use text_base::{Bytes, NoMemory, PageToken};

/// The tokens of a page of these characters, each as a word and a space.
pub fn words_by_pieces(alloc: Global, dtd: &Dtd, page: &[char]) -> Result<Bytes, NoMemory> {
    let indexed = IndexedDtd::new(alloc, dtd)?;
    let mut words = Bytes::new(alloc);
    let mut place = Place::Beginning;
    let mut rest = page;
    for _ in 0..page.len() {
        if rest.is_empty() {
            return Ok(words);
        }
        match next(alloc, &indexed, place, rest)? {
            None => {
                push_word(&mut words, PageToken::Bad)?;
                return Ok(words);
            }
            Some((taken, place_behind, behind)) => {
                push_taken(&mut words, taken)?;
                place = place_behind;
                rest = behind;
            }
        }
    }
    Ok(words)
}

// The lawful piece at the head: what it is for a tree, the place behind it and what stands there.
fn next<'c>(
    alloc: Global,
    indexed: &IndexedDtd<'_>,
    place: Place,
    cs: &'c [char],
) -> Result<Option<(Taken, Place, &'c [char])>, NoMemory> {
    let Some((piece, behind)) = piece_at(alloc, place, cs)? else {
        return Ok(None);
    };
    if !is_right(place, &piece) {
        return Ok(None);
    }
    match tokens_of(alloc, indexed, &piece)? {
        None => Ok(None),
        Some(taken) => Ok(Some((taken, after(place, &piece), behind))),
    }
}

// The place behind a piece: brackets in a row count, since `]]>` may not stand in text.
fn after(place: Place, piece: &Piece<'_>) -> Place {
    match (piece, place) {
        (Piece::Mark, _) => Place::BehindMark,
        (Piece::Character(']'), Place::Behind(1) | Place::Behind(2)) => Place::Behind(2),
        (Piece::Character(']'), _) => Place::Behind(1),
        _ => Place::Behind(0),
    }
}

fn push_taken(words: &mut Bytes, taken: Taken) -> Result<(), NoMemory> {
    match taken {
        Taken::Nothing => Ok(()),
        Taken::Doctype => push_word(words, PageToken::Doctype),
        Taken::Start(element) => push_word(words, PageToken::Start(element)),
        Taken::Empty(element) => {
            push_word(words, PageToken::Start(element))?;
            push_word(words, PageToken::End(element))
        }
        Taken::End(element) => push_word(words, PageToken::End(element)),
        Taken::Blank => push_word(words, PageToken::Blank),
        Taken::Text => push_word(words, PageToken::Text),
        Taken::Remark => push_word(words, PageToken::Misc),
    }
}
