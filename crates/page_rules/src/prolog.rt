//! The XML declaration and the document type declaration.

ghost use Rattle.std.specs.Prelude.{◌≡◌, IfOk};
ghost use Rattle.page_model.specs.Reading as spec;
ghost use Rattle.page_rules.specs.Views.{identifier_of, literal_of, seen_piece};

use crate::attribute_parts::{attributes, quoted};
use crate::classes::Class;
use crate::parts::{Declaration, Doctype, Identifier, Literal, Piece};
use crate::scan::{split, strip};
use std::alloc::Global;
use text_base::NoMemory;

/// The XML declaration behind `<?xml`.
#[tactic(auto, unfolding(page_model::specs::Reading::declaration_at))]
pub fn declaration(alloc: Global, cs: &[char]) -> Result<Option<(Piece<'_>, &[char])>, NoMemory>
    ensures { IfOk result (λ found. seen_piece found ≡ spec.declaration_at cs.now) }
{
    let (attributes, behind) = attributes(alloc, cs)?;
    let (space, end) = split(behind, Class::Blank);
    match strip(end, b"?>") {
        Some(rest) => Ok(Some((Piece::Declaration(Declaration { attributes, space }), rest))),
        None => Ok(None),
    }
}

/// The document type declaration behind `<!DOCTYPE`.
#[tactic(auto, unfolding(page_model::specs::Reading::doctype_at))]
pub fn doctype(cs: &[char]) -> Option<(Piece<'_>, &[char])>
    ensures { seen_piece result ≡ spec.doctype_at cs.now }
{
    let (space, at_name) = split(cs, Class::Blank);
    let behind = strip(at_name, b"html")?;
    identifier(space, behind)
}

// What stands behind `html`.
fn identifier<'c>(space: &'c [char], cs: &'c [char]) -> Option<(Piece<'c>, &'c [char])>
    ensures { seen_piece result ≡ spec.identifier_at space.now cs.now }
{
    let (before, word) = split(cs, Class::Blank);
    if let Some(rest) = strip(word, b"SYSTEM") {
        return system(space, before, rest);
    }
    match strip(word, b"PUBLIC") {
        Some(rest) => public(space, before, rest),
        None => doctype_end(space, Identifier::None, cs),
    }
}

// The identifier behind `SYSTEM`.
#[tactic(auto, unfolding(page_model::specs::Reading::system_at))]
fn system<'c>(
    space: &'c [char],
    before: &'c [char],
    cs: &'c [char],
) -> Option<(Piece<'c>, &'c [char])>
    ensures { seen_piece result ≡ spec.system_at space.now before.now cs.now }
{
    let (between, at_literal) = split(cs, Class::Blank);
    let (literal, rest) = quoted(at_literal)?;
    doctype_end(space, Identifier::System(before, between, literal), rest)
}

// The identifiers behind `PUBLIC`.
#[tactic(auto, unfolding(page_model::specs::Reading::public_at))]
fn public<'c>(
    space: &'c [char],
    before: &'c [char],
    cs: &'c [char],
) -> Option<(Piece<'c>, &'c [char])>
    ensures { seen_piece result ≡ spec.public_at space.now before.now cs.now }
{
    let (between, at_literal) = split(cs, Class::Blank);
    let (literal, rest) = quoted(at_literal)?;
    second(space, before, between, literal, rest)
}

// The system identifier behind a public one.
fn second<'c>(
    space: &'c [char],
    before: &'c [char],
    between: &'c [char],
    literal: Literal<'c>,
    cs: &'c [char],
) -> Option<(Piece<'c>, &'c [char])>
    ensures { seen_piece result
        ≡ spec.second_at space.now before.now between.now (literal_of literal.entry) cs.now }
{
    let (apart, at_second) = split(cs, Class::Blank);
    let (system, rest) = quoted(at_second)?;
    doctype_end(
        space,
        Identifier::Public(before, between, literal, apart, system),
        rest,
    )
}

// The end of the declaration.
fn doctype_end<'c>(
    space: &'c [char],
    identifier: Identifier<'c>,
    cs: &'c [char],
) -> Option<(Piece<'c>, &'c [char])>
    ensures { seen_piece result
        ≡ spec.doctype_end space.now (identifier_of identifier.entry) cs.now }
{
    let (end_space, end) = split(cs, Class::Blank);
    let rest = strip(end, b">")?;
    Some((
        Piece::Doctype(Doctype {
            space,
            identifier,
            end_space,
        }),
        rest,
    ))
}
