//! Names, literals and attributes.

ghost use Rattle.std.specs.Prelude.{◌≡◌, IfOk};
ghost use Rattle.page_model.specs.Reading as spec;
ghost use Rattle.page_rules.specs.Views.{seen_attribute, seen_attributes, seen_literal, seen_pair};

use crate::classes::{Class, begins_name, is_quote};
use crate::parts::{Attribute, Literal};
use crate::scan::{split, strip};
use std::alloc::Global;
use text_base::NoMemory;

/// A name, and what stands behind it.
pub fn name(cs: &[char]) -> Option<(&[char], &[char])>
    ensures { seen_pair result ≡ spec.name_at cs.now }
{
    let (first, _) = cs.split_first()?;
    if begins_name(*first) {
        Some(split(cs, Class::InName))
    } else {
        None
    }
}

/// A text in quotes, and what stands behind it.
pub fn quoted(cs: &[char]) -> Option<(Literal<'_>, &[char])>
    ensures { seen_literal result ≡ spec.quoted_at cs.now }
{
    let (quote, others) = cs.split_first()?;
    if !is_quote(*quote) {
        return None;
    }
    let (text, end) = split(others, Class::Other(*quote));
    let (_, rest) = end.split_first()?;
    Some((
        Literal {
            quote: *quote,
            text,
        },
        rest,
    ))
}

/// An attribute, and what stands behind it.
#[tactic(auto, unfolding(page_model::specs::Reading::attribute_at))]
pub fn attribute(cs: &[char]) -> Option<(Attribute<'_>, &[char])>
    ensures { seen_attribute result ≡ spec.attribute_at cs.now }
{
    let (space, at_name) = split(cs, Class::Blank);
    let (name, behind) = name(at_name)?;
    let (before_equals, at_equals) = split(behind, Class::Blank);
    let at_value = strip(at_equals, b"=")?;
    let (after_equals, at_quote) = split(at_value, Class::Blank);
    let (value, rest) = quoted(at_quote)?;
    Some((
        Attribute {
            space,
            name,
            before_equals,
            after_equals,
            value,
        },
        rest,
    ))
}

/// The attributes at the head, and what stands behind them.
pub fn attributes(alloc: Global, cs: &[char]) -> Result<(Vec<Attribute<'_>>, &[char]), NoMemory>
    ensures { IfOk result (λ found. seen_attributes found ≡ spec.all_attributes cs.now) }
{
    let mut attributes = Vec::new(alloc);
    let mut rest = cs;
    while let Some((attribute, behind)) = attribute(rest) {
        attributes.push(attribute)?;
        rest = behind;
    }
    Ok((attributes, rest))
}
