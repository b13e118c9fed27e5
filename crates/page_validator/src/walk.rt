//! The pass over the characters of a page.

ghost use Rattle.std.specs.Prelude.{◌≡◌, ◌≤◌, length, IfOk, IfSome, min, suc};
ghost use Rattle.dtd_model.specs.TableOf.{table_of};
ghost use Rattle.page_model.specs.Pieces as pieces;
ghost use Rattle.page_model.specs.Places as places;
ghost use Rattle.page_rules.specs.Views.{piece_of, place_of};
ghost use Rattle.page_validator.specs.Views.{Goes, progress_of};
ghost use Rattle.page_rules.specs.Takes.{taken_tokens};
ghost use Rattle.page_validator.specs.Walks.{IsNext, IsWalk, moved};
ghost use Rattle.content_automata.specs.Decides.{Decides};

use crate::{Progress, Sort};
use content_automata::Contents;
use dtd_index::IndexedDtd;
use dtd_model::Dtd;
use page_rules::{Piece, Place, Taken, is_right, piece_at, tokens_of};
use std::alloc::Global;
use text_base::NoMemory;

/// None where the characters are a valid page, else how many of them are left where that showed:
/// from the beginning of the piece on that no valid page goes on with.
pub fn walk(
    alloc: Global,
    indexed: &IndexedDtd<'_>,
    contents: &Contents,
    cs: &[char],
) -> Result<Option<usize>, NoMemory>
    requires decides { Decides (table_of indexed.now.dtd.now) contents.now }
    requires elements { length contents.now.0 ≡ length (table_of indexed.now.dtd.now).elements }
    ensures walk { IfOk result (IsWalk (table_of indexed.now.dtd.now) cs.now) }
    ensures within { IfOk result (λ found. IfSome found (λ left. left ≤ length cs.now)) }
{
    let mut place = Place::Beginning;
    let mut progress = Progress::new(alloc);
    let mut rest = cs;
    while !rest.is_empty() {
        match next(alloc, indexed, contents, place, &mut progress, rest)? {
            None => return Ok(Some(rest.len())),
            Some((place_behind, behind)) => {
                place = place_behind;
                rest = behind;
            }
        }
    }
    if progress.is_done() {
        Ok(None)
    } else {
        Ok(Some(0))
    }
}

// The first piece: the place behind it, and what stands there; none where no valid page goes on
// so.
fn next<'c>(
    alloc: Global,
    indexed: &IndexedDtd<'_>,
    contents: &Contents,
    place: Place,
    progress: &mut Progress,
    cs: &'c [char],
) -> Result<Option<(Place, &'c [char])>, NoMemory>
    requires { length contents.now.0 ≡ length (table_of indexed.now.dtd.now).elements }
    ensures { IfOk result
        (IsNext (table_of indexed.now.dtd.now) contents.now (place_of place)
        (progress_of progress.old) cs.now (progress_of progress.new)) }
{
    let Some((piece, behind)) = piece_at(alloc, place, cs)? else {
        return Ok(None);
    };
    if !is_right(place, &piece) {
        return Ok(None);
    }
    let Some(taken) = tokens_of(alloc, indexed, &piece)? else {
        return Ok(None);
    };
    if take(progress, indexed.dtd, contents, taken)? {
        Ok(Some((after(place, &piece), behind)))
    } else {
        Ok(None)
    }
}

// Goes over the tokens of a piece; false where they may not stand there.
fn take(
    progress: &mut Progress,
    dtd: &Dtd,
    contents: &Contents,
    taken: Taken,
) -> Result<bool, NoMemory>
    requires { length contents.now.0 ≡ length (table_of dtd.now).elements }
    ensures { IfOk result
        (Goes (moved (table_of dtd.now) contents.now (progress_of progress.old)
        (taken_tokens taken)) (progress_of progress.new)) }
{
    match taken {
        Taken::Nothing => Ok(true),
        Taken::Doctype => Ok(progress.doctype()),
        Taken::Start(element) => progress.start(dtd, contents, element),
        Taken::Empty(element) => {
            if progress.start(dtd, contents, element)? {
                Ok(progress.end(contents, element))
            } else {
                Ok(false)
            }
        }
        Taken::End(element) => Ok(progress.end(contents, element)),
        Taken::Blank => Ok(progress.allows(dtd, Sort::Blank)),
        Taken::Text => Ok(progress.allows(dtd, Sort::Text)),
        Taken::Remark => Ok(progress.allows(dtd, Sort::Remark)),
    }
}

// The place behind the piece.
fn after(place: Place, piece: &Piece<'_>) -> Place
    ensures { place_of result ≡ pieces.after (place_of place) (piece_of piece.now) }
{
    match piece {
        Piece::Mark => Place::BehindMark,
        Piece::Character(']') => Place::Behind(one_more(place)),
        _ => Place::Behind(0),
    }
}

// One bracket more, two at most.
fn one_more(place: Place) -> u8
    ensures { result ≡ min 2 (suc (places.brackets (place_of place))) }
{
    match place {
        Place::Beginning | Place::BehindMark | Place::Behind(0) => 1,
        Place::Behind(_) => 2,
    }
}
