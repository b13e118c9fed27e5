//! Tags and references.

ghost use Rattle.std.specs.Prelude.{◌≡◌, IfOk};
ghost use Rattle.page_model.specs.Reading as spec;
ghost use Rattle.page_rules.specs.Views as views;
ghost use Rattle.page_rules.specs.Views.{seen_piece, tag_of};
ghost use Rattle.page_model.specs.Parts as parts;

use crate::attribute_parts::{attributes, name};
use crate::classes::Class;
use crate::parts::{Piece, Reference, Tag};
use crate::scan::{split, strip};
use std::alloc::Global;
use text_base::NoMemory;

/// The tag behind `<`.
#[tactic(auto, unfolding(page_model::specs::Reading::open_at))]
pub fn open(alloc: Global, cs: &[char]) -> Result<Option<(Piece<'_>, &[char])>, NoMemory>
    ensures { IfOk result (λ found. seen_piece found ≡ spec.open_at cs.now) }
{
    let Some((name, behind)) = name(cs) else {
        return Ok(None);
    };
    let (attributes, rest) = attributes(alloc, behind)?;
    let (space, end) = split(rest, Class::Blank);
    let tag = Tag {
        name,
        attributes,
        space,
    };
    Ok(tag_end(tag, end))
}

// The tag, by what stands at its end.
fn tag_end<'c>(tag: Tag<'c>, cs: &'c [char]) -> Option<(Piece<'c>, &'c [char])>
    ensures { seen_piece result ≡ spec.tag_end (tag_of tag.entry) cs.now }
{
    match cs.split_first() {
        Some(('>', rest)) => Some((Piece::Start(tag), rest)),
        Some(('/', rest)) => match strip(rest, b">") {
            Some(rest) => Some((Piece::Empty(tag), rest)),
            None => None,
        },
        _ => None,
    }
}

/// The end tag behind `</`.
#[tactic(auto, unfolding(page_model::specs::Reading::end_at))]
pub fn end(cs: &[char]) -> Option<(Piece<'_>, &[char])>
    ensures { seen_piece result ≡ spec.end_at cs.now }
{
    let (name, behind) = name(cs)?;
    let (space, end) = split(behind, Class::Blank);
    let rest = strip(end, b">")?;
    Some((Piece::End(name, space), rest))
}

/// The reference behind `&`.
#[tactic(auto, unfolding(page_model::specs::Reading::reference_at))]
pub fn reference(cs: &[char]) -> Option<(Piece<'_>, &[char])>
    ensures { seen_piece result ≡ spec.reference_at cs.now }
{
    let (body, end) = split(cs, Class::Other(';'));
    let rest = strip(end, b";")?;
    Some((Piece::Reference(reference_of(body)), rest))
}

/// The reference that stands between `&` and `;`.
pub fn reference_of(body: &[char]) -> Reference<'_>
    ensures { views.reference_of result ≡ parts.reference_of body.now }
{
    match body {
        ['#', 'x', digits @ ..] => Reference::Hexadecimal(digits),
        ['#', digits @ ..] => Reference::Decimal(digits),
        name => Reference::Entity(name),
    }
}
