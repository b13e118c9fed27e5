//! The attributes of a tag.

ghost use Rattle.std.specs.Prelude.{◌≡◌, ◌&&◌, IfOk, map};
ghost use Rattle.std.specs.List.{list_all};
ghost use Rattle.dtd_model.specs.References.{is_known};
ghost use Rattle.dtd_model.specs.Table.{declared_of};
ghost use Rattle.dtd_model.specs.TableOf.{table_of};
ghost use Rattle.page_model.specs.Attributes as spec;
ghost use Rattle.page_model.specs.Parts.{refers_by, Attribute};
ghost use Rattle.page_rules.specs.Views.{attribute_of};
ghost use Rattle.page_rules.specs.Tests.{at_most_one, once_by};

use crate::{Attribute as Read, has_value, is_named, is_word, must_stand, refers_to_known};
use dtd_index::IndexedDtd;
use dtd_model::AttrRule;
use std::alloc::Global;
use text_base::{Bytes, NoMemory};

/// Whether the attributes of a tag are those that the element may and must have (XML 1.0, 3.3).
/// Time is linear in them, times the declared ones, of which there are at most 64.
pub fn attributes_fit(
    alloc: Global,
    indexed: &IndexedDtd<'_>,
    name: &[char],
    rules: &Vec<AttrRule>,
    attributes: &[Read<'_>],
) -> Result<bool, NoMemory>
    ensures { IfOk result
        (λ fit. fit ≡ spec.attributes_fit (table_of indexed.now.dtd.now).entities name.now
        (map declared_of rules.now.items) (map attribute_of attributes.now)) }
{
    let known = all_known(indexed, attributes);
    let declared = all_declared(alloc, rules, attributes)?;
    let stand = all_stand(name, rules, attributes);
    Ok(all_three(known, declared, stand))
}

fn all_three(first: bool, second: bool, third: bool) -> bool
    ensures { result ≡ (first && second && third) }
{
    first && second && third
}

// Whether no declared name stands twice, and each that has to stand does.
fn all_stand(name: &[char], rules: &Vec<AttrRule>, attributes: &[Read<'_>]) -> bool
    ensures { result ≡ (once_by (map attribute_of attributes.now) (map declared_of rules.now.items)
        && spec.all_there name.now (map declared_of rules.now.items)
        (map attribute_of attributes.now)) }
{
    all_once(rules, attributes) && all_there(name, rules, attributes)
}

fn all_known(indexed: &IndexedDtd<'_>, attributes: &[Read<'_>]) -> bool
    ensures { result ≡ list_all
        (λ (a : Attribute). refers_by (is_known (table_of indexed.now.dtd.now).entities) a.value)
        (map attribute_of attributes.now) }
{
    for attribute in attributes {
        if !refers_to_known(indexed, attribute.value.text) {
            return false;
        }
    }
    true
}

fn all_declared(
    alloc: Global,
    rules: &Vec<AttrRule>,
    attributes: &[Read<'_>],
) -> Result<bool, NoMemory>
    ensures { IfOk result
        (λ fit. fit ≡ list_all (spec.is_declared (map declared_of rules.now.items))
        (map attribute_of attributes.now)) }
{
    for attribute in attributes {
        if !is_declared(alloc, rules, attribute)? {
            return Ok(false);
        }
    }
    Ok(true)
}

// Whether the attribute is declared, and has an allowed value.
fn is_declared(alloc: Global, rules: &Vec<AttrRule>, attribute: &Read<'_>) -> Result<bool, NoMemory>
    ensures { IfOk result
        (λ fit. fit ≡ spec.is_declared (map declared_of rules.now.items)
        (attribute_of attribute.now)) }
{
    for rule in rules {
        if is_named(&rule.name, attribute.name) {
            return has_value(alloc, rule, attribute.value.text);
        }
    }
    Ok(false)
}

// Whether no declared name stands twice.
fn all_once(rules: &Vec<AttrRule>, attributes: &[Read<'_>]) -> bool
    ensures { result ≡ once_by (map attribute_of attributes.now) (map declared_of rules.now.items) }
{
    for rule in rules {
        if !is_once(attributes, &rule.name) {
            return false;
        }
    }
    true
}

fn is_once(attributes: &[Read<'_>], name: &Bytes) -> bool
    ensures { result ≡ at_most_one (map attribute_of attributes.now) name.now }
{
    let mut seen = false;
    for attribute in attributes {
        let here = is_word(attribute.name, name.as_slice());
        if here && seen {
            return false;
        }
        seen = seen || here;
    }
    true
}

fn stands(attributes: &[Read<'_>], name: &Bytes) -> bool
    ensures { result ≡ spec.stands (map attribute_of attributes.now) name.now }
{
    for attribute in attributes {
        if is_word(attribute.name, name.as_slice()) {
            return true;
        }
    }
    false
}

// Whether each attribute that has to stand does.
fn all_there(name: &[char], rules: &Vec<AttrRule>, attributes: &[Read<'_>]) -> bool
    ensures { result ≡ spec.all_there name.now (map declared_of rules.now.items)
        (map attribute_of attributes.now) }
{
    for rule in rules {
        if must_stand(name, rule) && !stands(attributes, &rule.name) {
            return false;
        }
    }
    true
}
