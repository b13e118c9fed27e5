//! The piece at the head of characters.

ghost use Rattle.std.specs.Prelude.{◌≡◌, IfOk};
ghost use Rattle.page_model.specs.Reading as spec;
ghost use Rattle.page_rules.specs.Views.{piece_of, place_of, seen_piece};

use crate::attribute_parts::name;
use crate::parts::{Piece, Place};
use crate::prolog::{declaration, doctype};
use crate::remarks::{comment, instruction, section};
use crate::scan::strip;
use crate::tags::{end, open, reference};
use std::alloc::Global;
use text_base::NoMemory;

/// The piece at the head of the characters, and what stands behind it; none where nothing there
/// has the form of a piece (XML 1.0, 2.1).
#[tactic(auto, unfolding(page_model::specs::Reading::piece_at))]
pub fn piece_at(
    alloc: Global,
    place: Place,
    cs: &[char],
) -> Result<Option<(Piece<'_>, &[char])>, NoMemory>
    ensures { IfOk result (λ found. seen_piece found ≡ spec.piece_at (place_of place) cs.now) }
{
    match cs.split_first() {
        None => Ok(None),
        Some(('<', rest)) => markup(alloc, rest),
        Some(('&', rest)) => Ok(reference(rest)),
        Some((c, rest)) => Ok(Some((single(place, *c), rest))),
    }
}

// A character that stands for itself.
fn single<'c>(place: Place, c: char) -> Piece<'c>
    ensures { piece_of result ≡ spec.single_at (place_of place) c }
{
    match place {
        Place::Beginning if c == '\u{FEFF}' => Piece::Mark,
        _ => Piece::Character(c),
    }
}

// What stands behind `<`.
#[tactic(auto, unfolding(page_model::specs::Reading::markup_at))]
fn markup(alloc: Global, cs: &[char]) -> Result<Option<(Piece<'_>, &[char])>, NoMemory>
    ensures { IfOk result (λ found. seen_piece found ≡ spec.markup_at cs.now) }
{
    match cs.split_first() {
        None => Ok(None),
        Some(('!', rest)) => Ok(bang(rest)),
        Some(('?', rest)) => question(alloc, rest),
        Some(('/', rest)) => Ok(end(rest)),
        Some(_) => open(alloc, cs),
    }
}

// What stands behind `<!`.
#[tactic(auto, unfolding(page_model::specs::Reading::bang_at))]
fn bang(cs: &[char]) -> Option<(Piece<'_>, &[char])>
    ensures { seen_piece result ≡ spec.bang_at cs.now }
{
    if let Some(rest) = strip(cs, b"--") {
        return comment(rest);
    }
    if let Some(rest) = strip(cs, b"[CDATA[") {
        return section(rest);
    }
    doctype(strip(cs, b"DOCTYPE")?)
}

// What stands behind `<?`.
#[tactic(auto, unfolding(page_model::specs::Reading::question_at))]
fn question(alloc: Global, cs: &[char]) -> Result<Option<(Piece<'_>, &[char])>, NoMemory>
    ensures { IfOk result (λ found. seen_piece found ≡ spec.question_at cs.now) }
{
    let Some((target, rest)) = name(cs) else {
        return Ok(None);
    };
    if target == ['x', 'm', 'l'].as_slice() {
        declaration(alloc, rest)
    } else {
        Ok(instruction(target, rest))
    }
}
