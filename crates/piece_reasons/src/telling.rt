//! The reason, by how the piece begins.

ghost use Rattle.std.specs.Prelude.{◌≡◌, ◌∷◌, IfOk};
ghost use Rattle.piece_reasons.specs.Sites.{HasCause};

use crate::doctypes::doctype;
use crate::finding::is_doctype_word;
use crate::reasons::PieceReason;
use crate::references::{reference, text};
use crate::remarks::{comment, question, section};
use crate::site::Site;
use crate::tags::{end_tag, start_tag};
use page_rules::begins_name;
use std::alloc::Global;
use text_base::NoMemory;

/// Why no lawful piece begins the characters at this place of a page, as far as it is known; what
/// each reason says holds (`IsCause`). Of a tag its element is looked at first, then its
/// attributes from the left, each in the order of [`AttributeReason`](crate::AttributeReason), then
/// its end, and then the attributes that have to stand. Linear in the characters, and in a tag also in
/// the declared attributes, of which there are at most 64.
pub fn piece_reason(
    alloc: Global,
    site: &Site<'_, '_>,
    cs: &[char],
) -> Result<PieceReason, NoMemory>
    ensures { IfOk result (HasCause site.now cs.now) }
{
    match cs.split_first() {
        Some(('<', rest)) => markup(alloc, site, cs, rest),
        Some(('&', rest)) => Ok(reference(site, rest)),
        _ => Ok(text(site, cs)),
    }
}

// What stands behind `<`.
fn markup(
    alloc: Global,
    site: &Site<'_, '_>,
    cs: &[char],
    rest: &[char],
) -> Result<PieceReason, NoMemory>
    requires { cs.now ≡ 60 ∷ rest.now }
    ensures { IfOk result (HasCause site.now cs.now) }
{
    match rest.split_first() {
        None => Ok(PieceReason::NotMarkup),
        Some(('!', more)) => bang(alloc, site, cs, more),
        Some(('?', more)) => Ok(question(site, more)),
        Some(('/', more)) => end_tag(alloc, site, more),
        Some((c, _)) => {
            if begins_name(*c) {
                start_tag(alloc, site, rest)
            } else {
                Ok(PieceReason::NotMarkup)
            }
        }
    }
}

// What stands behind `<!`.
fn bang(
    alloc: Global,
    site: &Site<'_, '_>,
    cs: &[char],
    rest: &[char],
) -> Result<PieceReason, NoMemory>
    requires { cs.now ≡ 60 ∷ 33 ∷ rest.now }
    ensures { IfOk result (HasCause site.now cs.now) }
{
    if let Some(text) = rest.strip_prefix(&['-', '-']) {
        return Ok(comment(site, text));
    }
    if let Some(text) = rest.strip_prefix(&['[', 'C', 'D', 'A', 'T', 'A', '[']) {
        return Ok(section(site, text));
    }
    if is_doctype_word(rest) {
        doctype(alloc, site, cs, rest)
    } else {
        Ok(PieceReason::NotMarkup)
    }
}
