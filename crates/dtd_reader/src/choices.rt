//! Attributes that are a choice of too many values.

ghost use Rattle.std.specs.Prelude.{◌≡◌, map, nat_lt};
ghost use Rattle.std.specs.List.{list_any};
ghost use Rattle.dtd_model.specs.Table.{declared_of, kind_of, rule_of};
ghost use Rattle.dtd_reader.specs.Choices.{value_count, is_large, have_large};

use crate::limits::VALUE_LIMIT;
use dtd_model::{AttrKind, AttrRule, ElementRule};

// Whether an attribute of this type is a choice of too many values.
fn has_many_values(kind: &AttrKind) -> bool
    ensures { result ≡ nat_lt VALUE_LIMIT (value_count (kind_of kind.now)) }
{
    match kind {
        AttrKind::Choice(values) => values.len() as u64 > VALUE_LIMIT,
        AttrKind::Cdata
        | AttrKind::Id
        | AttrKind::Idref
        | AttrKind::Idrefs
        | AttrKind::Nmtoken
        | AttrKind::Nmtokens => false,
    }
}

// Whether one of these attributes is.
fn has_large(rules: &[AttrRule]) -> bool
    ensures { result ≡ list_any is_large (map declared_of rules.now) }
{
    for rule in rules {
        if has_many_values(&rule.kind) {
            return true;
        }
    }
    false
}

/// Whether one of these elements has an attribute that is a choice of over 1,024 values.
pub fn have_large_choice(elements: &[ElementRule]) -> bool
    ensures { result ≡ have_large (map rule_of elements.now) }
{
    for element in elements {
        if has_large(element.attributes.as_slice()) {
            return true;
        }
    }
    false
}
