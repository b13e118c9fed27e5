//! Comments, CDATA sections and instructions.

ghost use Rattle.std.specs.Prelude.{◌≡◌, ◌++◌, ℕ, List, codes};
ghost use Rattle.piece_reasons.specs.Sites.{HasCause};
ghost use Rattle.piece_reasons.specs.Causes.{InTarget};
ghost use Rattle.piece_reasons.specs.Openers as spec;

use crate::finding::{from_first, name};
use crate::reasons::PieceReason;
use crate::site::Site;
use page_rules::{Place, is_blank, is_word, is_word_in_any_case};
use xml_text::is_character;

// The first character before the end that XML does not have.
fn stray(site: &Site<'_, '_>, text: &[char], end: &[char]) -> PieceReason
    ensures { (opener : List ℕ) → HasCause site.now (opener ++ text.now) result }
{
    let mut left = text;
    while left.len() > end.len() {
        let Some((c, rest)) = left.split_first() else {
            return PieceReason::Other;
        };
        if !is_character(*c) {
            let at = site.before(left);
            return PieceReason::NotCharacter { at };
        }
        left = rest;
    }
    PieceReason::Other
}

/// Why no lawful comment stands behind `<!--`.
pub fn comment(site: &Site<'_, '_>, text: &[char]) -> PieceReason
    ensures { HasCause site.now (codes "<!--" ++ text.now) result }
{
    let Some(end) = from_first(text, &['-', '-', '>']) else {
        return PieceReason::CommentNotClosed;
    };
    let Some(hyphens) = from_first(text, &['-', '-']) else {
        return PieceReason::Other;
    };
    if !hyphens.starts_with(&['-', '-', '>']) {
        return PieceReason::DoubleHyphen {
            at: site.before(hyphens),
        };
    }
    stray(site, text, end)
}

/// Why no lawful section stands behind `<![CDATA[`.
pub fn section(site: &Site<'_, '_>, text: &[char]) -> PieceReason
    ensures { HasCause site.now (codes "<![CDATA[" ++ text.now) result }
{
    match from_first(text, &[']', ']', '>']) {
        None => PieceReason::SectionNotClosed,
        Some(end) => stray(site, text, end),
    }
}

/// Why neither a lawful instruction nor a lawful XML declaration stands behind `<?`.
pub fn question(site: &Site<'_, '_>, rest: &[char]) -> PieceReason
    ensures { HasCause site.now (codes "<?" ++ rest.now) result }
{
    let Some((target, left)) = name(rest) else {
        return PieceReason::NotMarkup;
    };
    if is_word(target, b"xml") {
        return declaration(site);
    }
    if is_word_in_any_case(target, b"xml") {
        return PieceReason::TargetReserved;
    }
    let Some(end) = from_first(left, &['?', '>']) else {
        return PieceReason::InstructionNotClosed;
    };
    if is_apart(left) {
        stray(site, rest, end)
    } else {
        PieceReason::TargetNotApart
    }
}

// Of an XML declaration.
fn declaration(site: &Site<'_, '_>) -> PieceReason
    ensures { (cs : List ℕ) (left : List ℕ) → InTarget cs (codes "xml") left
        → HasCause site.now cs result }
{
    match site.place {
        Place::Beginning | Place::BehindMark => PieceReason::DeclarationNotLawful,
        Place::Behind(_) => PieceReason::DeclarationLate,
    }
}

// Whether white space or the end of an instruction stands there.
fn is_apart(cs: &[char]) -> bool
    ensures { result ≡ spec.is_apart cs.now }
{
    match cs.split_first() {
        None => true,
        Some((c, _)) => is_blank(*c) || cs.starts_with(&['?', '>']),
    }
}
