//! Which tokens a piece gives, where the definition allows it.

ghost use Rattle.std.specs.Prelude.{◌≡◌, IfOk, ℕ, List};
ghost use Rattle.dtd_model.specs.Table.{Table};
ghost use Rattle.dtd_model.specs.TableOf.{table_of};
ghost use Rattle.page_model.specs.Parts as parts;
ghost use Rattle.page_model.specs.Pieces as pieces;
ghost use Rattle.page_model.specs.Prolog as prolog;
ghost use Rattle.page_rules.specs.Views.{doctype_of, identifier_of, piece_of, reference_of, tag_of};
ghost use Rattle.page_rules.specs.Takes.{Takes, TakesTag, identifier_fits};

use crate::attributes::attributes_fit;
use crate::{Doctype, Identifier, Piece, Reference, Tag, element, is_blank, is_known, is_word};
use dtd_index::IndexedDtd;
use dtd_model::DoctypeRule;
use std::alloc::Global;
use text_base::{Elem, NoMemory};

/// What a piece is for the tree of a page.
#[derive(Clone, Copy, Debug)]
pub enum Taken {
    /// Nothing: the byte order mark or the XML declaration.
    Nothing,
    /// The document type declaration.
    Doctype,
    /// The start tag of an element.
    Start(Elem),
    /// The tag of an empty element.
    Empty(Elem),
    /// The end tag of an element.
    End(Elem),
    /// White space.
    Blank,
    /// Other text.
    Text,
    /// A comment or an instruction.
    Remark,
}

/// What the piece is for the tree of the page; none where the definition does not allow it.
pub fn tokens_of(
    alloc: Global,
    indexed: &IndexedDtd<'_>,
    piece: &Piece<'_>,
) -> Result<Option<Taken>, NoMemory>
    ensures { IfOk result (λ found. Takes (table_of indexed.now.dtd.now) (piece_of piece.now) found) }
{
    match piece {
        Piece::Mark | Piece::Declaration(_) => Ok(Some(Taken::Nothing)),
        Piece::Doctype(doctype) => Ok(doctype_taken(indexed, *doctype)),
        Piece::Start(tag) => start_taken(alloc, indexed, tag),
        Piece::Empty(tag) => empty_taken(alloc, indexed, tag),
        Piece::End(name, _) => Ok(end_taken(indexed, name)),
        Piece::Character(c) => Ok(character_taken(*c)),
        Piece::Reference(reference) => Ok(reference_taken(indexed, *reference)),
        Piece::Section(_) => Ok(Some(Taken::Text)),
        Piece::Comment(_) | Piece::Instruction(_, _) => Ok(Some(Taken::Remark)),
    }
}

fn doctype_taken(indexed: &IndexedDtd<'_>, doctype: Doctype<'_>) -> Option<Taken>
    ensures { Takes (table_of indexed.now.dtd.now) (pieces.doctype (doctype_of doctype.entry))
        result }
{
    if doctype_fits(indexed.dtd.doctype, doctype.identifier) {
        Some(Taken::Doctype)
    } else {
        None
    }
}

fn doctype_fits(rule: DoctypeRule, identifier: Identifier<'_>) -> bool
    ensures { result ≡ identifier_fits rule (identifier_of identifier.entry) }
{
    match rule {
        DoctypeRule::Free => true,
        DoctypeRule::Strict => is_strict(identifier),
    }
}

// The public identifier of XHTML 1.0 Strict (XHTML 1.0, 3.1.1).
fn is_strict(identifier: Identifier<'_>) -> bool
    ensures { result ≡ prolog.is_strict (identifier_of identifier.entry) }
{
    match identifier {
        Identifier::None | Identifier::System(_, _, _) => false,
        Identifier::Public(_, _, public, _, _) => {
            is_word(public.text, b"-//W3C//DTD XHTML 1.0 Strict//EN")
        }
    }
}

fn start_taken(
    alloc: Global,
    indexed: &IndexedDtd<'_>,
    tag: &Tag<'_>,
) -> Result<Option<Taken>, NoMemory>
    ensures { IfOk result
        (λ found. Takes (table_of indexed.now.dtd.now) (pieces.start_tag (tag_of tag.now)) found) }
{
    match tag_taken(alloc, indexed, tag)? {
        Some(element) => Ok(Some(Taken::Start(element))),
        None => Ok(None),
    }
}

fn empty_taken(
    alloc: Global,
    indexed: &IndexedDtd<'_>,
    tag: &Tag<'_>,
) -> Result<Option<Taken>, NoMemory>
    ensures { IfOk result
        (λ found. Takes (table_of indexed.now.dtd.now) (pieces.empty_tag (tag_of tag.now)) found) }
{
    match tag_taken(alloc, indexed, tag)? {
        Some(element) => Ok(Some(Taken::Empty(element))),
        None => Ok(None),
    }
}

// The element of the tag; none where the tag is not as declared.
fn tag_taken(
    alloc: Global,
    indexed: &IndexedDtd<'_>,
    tag: &Tag<'_>,
) -> Result<Option<Elem>, NoMemory>
    ensures { IfOk result (λ found. TakesTag (table_of indexed.now.dtd.now) (tag_of tag.now) found) }
{
    let Some(element) = element(indexed, tag.name) else {
        return Ok(None);
    };
    let rules = &indexed.dtd.elements[usize::from(element.0)].attributes;
    if attributes_fit(alloc, indexed, tag.name, rules, tag.attributes.as_slice())? {
        Ok(Some(element))
    } else {
        Ok(None)
    }
}

fn end_taken(indexed: &IndexedDtd<'_>, name: &[char]) -> Option<Taken>
    ensures { (space : List ℕ)
        → Takes (table_of indexed.now.dtd.now) (pieces.end_tag name.now space) result }
{
    match element(indexed, name) {
        Some(element) => Some(Taken::End(element)),
        None => None,
    }
}

fn character_taken(c: char) -> Option<Taken>
    ensures { (table : Table) → Takes table (pieces.leaf (parts.character c)) result }
{
    if is_blank(c) {
        Some(Taken::Blank)
    } else {
        Some(Taken::Text)
    }
}

fn reference_taken(indexed: &IndexedDtd<'_>, reference: Reference<'_>) -> Option<Taken>
    ensures { Takes (table_of indexed.now.dtd.now)
        (pieces.leaf (parts.reference (reference_of reference.entry))) result }
{
    if is_known(indexed, reference) {
        Some(Taken::Text)
    } else {
        None
    }
}
