//! Targets.

ghost use Rattle.std.specs.Prelude.{◌≡◌, ◌&&◌, codes, length, nat_le, take, IfOk, Some};
ghost use Rattle.std.specs.Str.{str_eq_ignore_ascii_case};
ghost use Rattle.page_model.specs.Fronts as fronts;
ghost use Rattle.page_model.specs.Places as places;
ghost use Rattle.page_steps.specs.PageSteps as steps;
ghost use Rattle.open_pieces.specs.Views.{plain_open, plain_place};
ghost use Rattle.remark_stepping.specs.Views.{plain_move};
ghost use Rattle.target_stepping.specs.Views as views;

use open_pieces::{Characters, NameList, OpenAttribute, OpenPiece, PagePlace};
use page_rules::{begins_name, in_name, is_blank, is_word, is_word_in_any_case};
use remark_stepping::PageMove;
use std::alloc::Global;
use text_base::NoMemory;

/// One character more behind `<?` and so much of a target that may still become `xml` (XML 1.0, 2.6
/// and 2.8).
pub fn target_move(
    alloc: Global,
    place: PagePlace,
    target: &Characters,
    c: char,
) -> Result<PageMove, NoMemory>
    ensures { IfOk result
        (λ to. plain_move to ≡ steps.target_move (plain_place place) (Some target.now) c) }
{
    match target.as_slice() {
        [] => first_move(alloc, c),
        [_, ..] => more_move(alloc, place, target, c),
    }
}

// Directly behind `<?`.
fn first_move(alloc: Global, c: char) -> Result<PageMove, NoMemory>
    ensures { IfOk result (λ to. plain_move to ≡ views.first_move c) }
{
    if !begins_name(c) {
        return Ok(PageMove::Fail);
    }
    let target = Characters::new(alloc).with(alloc, c)?;
    Ok(PageMove::Go(kept_target(target)))
}

fn more_move(
    alloc: Global,
    place: PagePlace,
    target: &Characters,
    c: char,
) -> Result<PageMove, NoMemory>
    ensures { IfOk result (λ to. plain_move to ≡ views.more_move (plain_place place) target.now c) }
{
    if in_name(c) {
        let more = target.with(alloc, c)?;
        Ok(PageMove::Go(kept_target(more)))
    } else {
        Ok(behind_move(alloc, place, target, c))
    }
}

/// One character more behind `<?` and so much of a target that cannot become `xml` (XML 1.0, 2.6).
pub fn other_target_move(c: char) -> PageMove
    ensures { plain_move result ≡ views.other_target_move c }
{
    if in_name(c) {
        PageMove::Go(OpenPiece::OtherTarget)
    } else {
        instruction_begin(c)
    }
}

// What is kept of a target.
fn kept_target(target: Characters) -> OpenPiece
    ensures { plain_open result ≡ fronts.in_target (fronts.reserved target) }
{
    if begins_xml(target.as_slice()) {
        OpenPiece::Target(target)
    } else {
        OpenPiece::OtherTarget
    }
}

// Whether `xml` begins so, in any case.
fn begins_xml(cs: &[char]) -> bool
    ensures { result ≡ (nat_le (length cs.now) 3 && str_eq_ignore_ascii_case cs.now
        (take (length cs.now) (codes "xml"))) }
{
    cs.len() <= 3 && is_word_in_any_case(cs, &b"xml"[..cs.len()])
}

// Behind a target.
fn behind_move(alloc: Global, place: PagePlace, target: &Characters, c: char) -> PageMove
    ensures { plain_move result ≡ steps.behind_move (plain_place place) (Some target.now) c }
{
    if is_word_in_any_case(target.as_slice(), b"xml") {
        declaration_begin(alloc, place, target, c)
    } else {
        instruction_begin(c)
    }
}

// Behind `xml` in some case.
fn declaration_begin(alloc: Global, place: PagePlace, target: &Characters, c: char) -> PageMove
    ensures { plain_move result ≡ views.declaration_begun (plain_place place) target.now c }
{
    if is_word(target.as_slice(), b"xml") && is_early(place) && is_blank(c) {
        PageMove::Go(OpenPiece::Declaration(NameList::new(alloc), OpenAttribute::Between(true)))
    } else {
        PageMove::Fail
    }
}

// Whether an XML declaration may stand there.
fn is_early(place: PagePlace) -> bool
    ensures { result ≡ places.is_early (plain_place place) }
{
    match place {
        PagePlace::AtBeginning | PagePlace::BehindMark => true,
        PagePlace::Behind(_) => false,
    }
}

// Behind a target that is not `xml`.
fn instruction_begin(c: char) -> PageMove
    ensures { plain_move result ≡ views.instruction_begun c }
{
    if is_blank(c) {
        return PageMove::Go(OpenPiece::Instruction(false));
    }
    if c == '?' {
        PageMove::Go(OpenPiece::BehindTarget)
    } else {
        PageMove::Fail
    }
}
