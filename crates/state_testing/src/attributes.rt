//! What is open among attributes.

ghost use Rattle.std.specs.Prelude.{◌≡◌, ◌∷◌, ◌||◌, true, if◌then◌else◌, IfOk, map};
ghost use Rattle.std.specs.List.{list_any};
ghost use Rattle.dtd_model.specs.Table.{declared_of};
ghost use Rattle.dtd_model.specs.TableOf.{table_of};
ghost use Rattle.page_model.specs.Attributes as spec;
ghost use Rattle.page_model.specs.Fronts as fronts;
ghost use Rattle.page_endings.specs.Ending as ending;
ghost use Rattle.open_pieces.specs.Views.{plain_attribute, plain_value};
ghost use Rattle.page_rules.specs.Found.{plain_declared};

use crate::beginnings::begins;
use crate::values::{has_value, value_can_end};
use attribute_stepping::is_name_among;
use dtd_index::IndexedDtd;
use dtd_model::AttrRule;
use open_pieces::{NameList, OpenAttribute, OpenValue};
use page_rules::{find_declared, is_named, must_stand};
use std::alloc::Global;
use text_base::{Bytes, NoMemory};

// The declaration of the attribute of this name, which is ASCII.
fn find_named<'d>(rules: &'d Vec<AttrRule>, name: &Bytes) -> Option<&'d AttrRule>
    ensures { plain_declared result
        ≡ fronts.find_declared (map declared_of rules.now.items) name.now }
{
    for rule in rules {
        if rule.name.as_slice() == name.as_slice() {
            return Some(rule);
        }
    }
    None
}

fn is_written(
    alloc: Global,
    indexed: &IndexedDtd<'_>,
    rule: Option<&AttrRule>,
) -> Result<bool, NoMemory>
    ensures { IfOk result (λ is. is ≡ ending.declared_so
        (ending.has_value (table_of indexed.now.dtd.now).entities) (plain_declared rule.entry)) }
{
    match rule {
        None => Ok(false),
        Some(rule) => has_value(alloc, indexed, rule),
    }
}

// Whether an attribute stands, or can be written, where it has to stand.
fn is_wanted(
    alloc: Global,
    indexed: &IndexedDtd<'_>,
    tag: &[char],
    rules: &Vec<AttrRule>,
    rule: &AttrRule,
    stands: bool,
) -> Result<bool, NoMemory>
    ensures { IfOk result (λ is. is ≡ (if spec.must_stand tag.now (declared_of rule.now) then stands
        || ending.can_be_written (table_of indexed.now.dtd.now).entities
        (map declared_of rules.now.items) rule.now.name else true)) }
{
    if !must_stand(tag, rule) {
        return Ok(true);
    }
    if stands {
        return Ok(true);
    }
    is_written(alloc, indexed, find_named(rules, &rule.name))
}

/// Whether each attribute that has to stand is among these, or can be written.
pub fn may_be_all(
    alloc: Global,
    indexed: &IndexedDtd<'_>,
    tag: &[char],
    rules: &Vec<AttrRule>,
    names: &NameList,
) -> Result<bool, NoMemory>
    ensures { IfOk result (λ is. is ≡ ending.may_be_all (table_of indexed.now.dtd.now).entities
        tag.now (map declared_of rules.now.items) names.now) }
{
    for rule in rules {
        let stands = is_name_among(names, &rule.name);
        if !is_wanted(alloc, indexed, tag, rules, rule, stands)? {
            return Ok(false);
        }
    }
    Ok(true)
}

// Whether each attribute that has to stand is among these with one more, or can be written.
fn may_be_rest(
    alloc: Global,
    indexed: &IndexedDtd<'_>,
    tag: &[char],
    rules: &Vec<AttrRule>,
    names: &NameList,
    name: &[char],
) -> Result<bool, NoMemory>
    ensures { IfOk result (λ is. is ≡ ending.may_be_all (table_of indexed.now.dtd.now).entities
        tag.now (map declared_of rules.now.items) (name.now ∷ names.now)) }
{
    for rule in rules {
        let stands = is_named(&rule.name, name) || is_name_among(names, &rule.name);
        if !is_wanted(alloc, indexed, tag, rules, rule, stands)? {
            return Ok(false);
        }
    }
    Ok(true)
}

// Whether each attribute that has to stand is among these with a declared one, or can be written.
fn may_be_others(
    alloc: Global,
    indexed: &IndexedDtd<'_>,
    tag: &[char],
    rules: &Vec<AttrRule>,
    names: &NameList,
    name: &Bytes,
) -> Result<bool, NoMemory>
    ensures { IfOk result (λ is. is ≡ ending.may_be_all (table_of indexed.now.dtd.now).entities
        tag.now (map declared_of rules.now.items) (name.now ∷ names.now)) }
{
    for rule in rules {
        let stands = rule.name.as_slice() == name.as_slice() || is_name_among(names, &rule.name);
        if !is_wanted(alloc, indexed, tag, rules, rule, stands)? {
            return Ok(false);
        }
    }
    Ok(true)
}

fn may_be_next(
    alloc: Global,
    indexed: &IndexedDtd<'_>,
    tag: &[char],
    rules: &Vec<AttrRule>,
    names: &NameList,
    front: &[char],
    rule: &AttrRule,
) -> Result<bool, NoMemory>
    ensures { IfOk result (λ is. is ≡ ending.may_be_next (table_of indexed.now.dtd.now).entities
        tag.now (map declared_of rules.now.items) names.now front.now (declared_of rule.now)) }
{
    if !begins(rule.name.as_slice(), front) {
        return Ok(false);
    }
    if is_name_among(names, &rule.name) {
        return Ok(false);
    }
    if !is_written(alloc, indexed, find_named(rules, &rule.name))? {
        return Ok(false);
    }
    may_be_others(alloc, indexed, tag, rules, names, &rule.name)
}

fn any_may_be_next(
    alloc: Global,
    indexed: &IndexedDtd<'_>,
    tag: &[char],
    rules: &Vec<AttrRule>,
    names: &NameList,
    front: &[char],
) -> Result<bool, NoMemory>
    ensures { IfOk result (λ is. is ≡ list_any
        (ending.may_be_next (table_of indexed.now.dtd.now).entities
        tag.now (map declared_of rules.now.items) names.now front.now)
        (map declared_of rules.now.items)) }
{
    for rule in rules {
        if may_be_next(alloc, indexed, tag, rules, names, front, rule)? {
            return Ok(true);
        }
    }
    Ok(false)
}

fn may_be_one(
    alloc: Global,
    indexed: &IndexedDtd<'_>,
    tag: &[char],
    rules: &Vec<AttrRule>,
    names: &NameList,
    name: &[char],
) -> Result<bool, NoMemory>
    ensures { IfOk result (λ is. is ≡ ending.may_be_one (table_of indexed.now.dtd.now).entities
        tag.now (map declared_of rules.now.items) names.now name.now) }
{
    if !is_written(alloc, indexed, find_declared(rules, name))? {
        return Ok(false);
    }
    may_be_rest(alloc, indexed, tag, rules, names, name)
}

fn declared_can_end(
    alloc: Global,
    indexed: &IndexedDtd<'_>,
    rule: Option<&AttrRule>,
    quote: char,
    value: &OpenValue,
) -> Result<bool, NoMemory>
    ensures { IfOk result (λ is. is ≡ ending.declared_so (λ d. ending.value_can_end
        (table_of indexed.now.dtd.now).entities d quote (plain_value value.now))
        (plain_declared rule.entry)) }
{
    match rule {
        None => Ok(false),
        Some(rule) => value_can_end(alloc, indexed, rule, quote, value),
    }
}

/// Whether a piece can still come of what is open of an attribute in a tag of this name, where
/// these names stand before it.
pub fn attribute_can_end(
    alloc: Global,
    indexed: &IndexedDtd<'_>,
    tag: &[char],
    rules: &Vec<AttrRule>,
    names: &NameList,
    attribute: &OpenAttribute,
) -> Result<bool, NoMemory>
    ensures { IfOk result (λ is. is ≡ ending.attribute_can_end
        (table_of indexed.now.dtd.now).entities tag.now (map declared_of rules.now.items) names.now
        (plain_attribute attribute.now)) }
{
    match attribute {
        OpenAttribute::Between(_) => may_be_all(alloc, indexed, tag, rules, names),
        OpenAttribute::Name(name) => {
            any_may_be_next(alloc, indexed, tag, rules, names, name.as_slice())
        }
        OpenAttribute::BehindName(name) | OpenAttribute::BehindEquals(name) => {
            may_be_one(alloc, indexed, tag, rules, names, name.as_slice())
        }
        OpenAttribute::Value(name, quote, value) => {
            let rule = find_declared(rules, name.as_slice());
            if !declared_can_end(alloc, indexed, rule, *quote, value)? {
                return Ok(false);
            }
            may_be_rest(alloc, indexed, tag, rules, names, name.as_slice())
        }
    }
}
