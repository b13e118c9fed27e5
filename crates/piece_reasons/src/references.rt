//! Text and references.

ghost use Rattle.std.specs.Prelude.{◌≡◌, ◌∷◌, ◌&&◌};
ghost use Rattle.dtd_model.specs.References as spec;
ghost use Rattle.page_model.specs.Parts as parts;
ghost use Rattle.piece_reasons.specs.Sites.{HasCause};

use crate::reasons::PieceReason;
use crate::site::Site;
use page_rules::{Class, Place, is_known, is_reference, is_some, reference_of, split};
use xml_text::is_character;

/// Why no reference that is lawful stands behind `&`.
pub fn reference(site: &Site<'_, '_>, rest: &[char]) -> PieceReason
    ensures { HasCause site.now (38 ∷ rest.now) result }
{
    let (body, end) = split(rest, Class::Other(';'));
    if !is_ended(body, end) {
        return PieceReason::NotReference;
    }
    if is_known(site.indexed, reference_of(body)) {
        return PieceReason::Other;
    }
    PieceReason::EntityNotDeclared {
        name: site.span(rest, end),
    }
}

fn is_ended(body: &[char], end: &[char]) -> bool
    ensures { result ≡ (spec.is_some end.now && spec.is_reference (parts.reference_of body.now)) }
{
    is_some(end) && is_reference(reference_of(body))
}

/// Why the first character is no lawful one of text.
pub fn text(site: &Site<'_, '_>, cs: &[char]) -> PieceReason
    ensures { HasCause site.now cs.now result }
{
    let Some((c, _)) = cs.split_first() else {
        return PieceReason::Other;
    };
    if !is_character(*c) {
        let at = site.before(cs);
        return PieceReason::NotCharacter { at };
    }
    match site.place {
        Place::Behind(2) if *c == '>' => PieceReason::SectionEnd,
        _ => PieceReason::Other,
    }
}
