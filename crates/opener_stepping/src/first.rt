//! Where a piece begins.

ghost use Rattle.std.specs.Prelude.{◌≡◌, IfOk, min, suc};
ghost use Rattle.page_model.specs.PageTokens as tokens;
ghost use Rattle.page_model.specs.Parts as parts;
ghost use Rattle.page_model.specs.Pieces as pieces;
ghost use Rattle.page_model.specs.Places as places;
ghost use Rattle.page_model.specs.Valid as valid;
ghost use Rattle.page_steps.specs.PageSteps as steps;
ghost use Rattle.open_pieces.specs.Views.{plain_place};
ghost use Rattle.remark_stepping.specs.Views.{plain_move};

use byte_readers::Emit;
use open_pieces::{Characters, OpenPiece, OpenReference, PagePlace};
use page_rules::is_blank;
use remark_stepping::PageMove;
use std::alloc::Global;
use text_base::{NoMemory, PageToken};

/// The first character of a piece, behind those before it (XML 1.0, 2.1 and 2.4).
pub fn first_move(alloc: Global, place: PagePlace, c: char) -> Result<PageMove, NoMemory>
    ensures { IfOk result (λ to. plain_move to ≡ steps.first_move (plain_place place) c) }
{
    if c == '<' {
        let begun = Characters::new(alloc).with(alloc, '<')?;
        return Ok(PageMove::Go(OpenPiece::Opener(begun)));
    }
    if c == '&' {
        let name = Characters::new(alloc);
        return Ok(PageMove::Go(OpenPiece::Reference(OpenReference::Entity(name))));
    }
    Ok(single_move(place, c))
}

// A character that is a piece by itself.
fn single_move(place: PagePlace, c: char) -> PageMove
    ensures { plain_move result ≡ steps.single_move (plain_place place) c }
{
    match place {
        PagePlace::AtBeginning => beginning_move(c),
        PagePlace::BehindMark | PagePlace::Behind(_) => text_move(place, c),
    }
}

// At the beginning U+FEFF is the byte order mark (XML 1.0, 4.3.3).
fn beginning_move(c: char) -> PageMove
    ensures { plain_move result ≡ steps.single_move places.at_beginning c }
{
    if c == '\u{FEFF}' {
        PageMove::Done(PagePlace::BehindMark, Emit::Nothing)
    } else {
        text_move(PagePlace::AtBeginning, c)
    }
}

fn text_move(place: PagePlace, c: char) -> PageMove
    ensures { plain_move result ≡ steps.text_move (plain_place place) c }
{
    if may_follow(place, c) {
        PageMove::Done(behind_character(place, c), Emit::One(token_of(c)))
    } else {
        PageMove::Fail
    }
}

fn may_follow(place: PagePlace, c: char) -> bool
    ensures { result ≡ pieces.may_follow (plain_place place) (parts.character c) }
{
    match place {
        PagePlace::AtBeginning => c != '\u{FEFF}',
        PagePlace::BehindMark => true,
        PagePlace::Behind(brackets) => !(c == '>' && brackets == 2),
    }
}

fn behind_character(place: PagePlace, c: char) -> PagePlace
    ensures { plain_place result ≡ pieces.behind_leaf (plain_place place) (parts.character c) }
{
    if c == ']' {
        PagePlace::Behind(one_more(place))
    } else {
        PagePlace::Behind(0)
    }
}

// How many `]` are the last characters behind one more.
fn one_more(place: PagePlace) -> u8
    ensures { result ≡ min 2 (suc (places.brackets (plain_place place))) }
{
    match place {
        PagePlace::AtBeginning | PagePlace::BehindMark | PagePlace::Behind(0) => 1,
        PagePlace::Behind(_) => 2,
    }
}

fn token_of(c: char) -> PageToken
    ensures { result ≡ tokens.sort_token (valid.sort_of (parts.character c)) }
{
    if is_blank(c) {
        PageToken::Blank
    } else {
        PageToken::Text
    }
}
