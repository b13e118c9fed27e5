//! An attribute of a tag, in the order in which its reasons are looked for.

ghost use Rattle.std.specs.Prelude.{◌≡◌, ◌==◌, ℕ, true, List, IfOk, IfSome, MatchResult, map};
ghost use Rattle.std.specs.List.{list_all, list_any};
ghost use Rattle.xml_text.specs.Characters as characters;
ghost use Rattle.xml_text.specs.Characters.{is_blank};
ghost use Rattle.dtd_model.specs.References as references;
ghost use Rattle.dtd_model.specs.Table.{Declared, declared_of};
ghost use Rattle.page_model.specs.Attributes as spec;
ghost use Rattle.page_model.specs.Parts as parts;
ghost use Rattle.page_model.specs.Scan.{beyond};
ghost use Rattle.page_rules.specs.Views.{attribute_of, literal_of};
ghost use Rattle.piece_reasons.specs.Sites.{table_at};
ghost use Rattle.piece_reasons.specs.Tags.{IsName, IsWhole, IsWrong, IsWrongWhole, IsJudged, IsValue, IsNoValue};

use crate::reasons::AttributeReason;
use crate::site::Site;
use dtd_model::AttrRule;
use page_rules::{
    Attribute, Class, Literal, find_declared, has_fixed, has_kind, is_quote, is_some, is_word,
    refers, refers_to_known, split,
};
use std::alloc::Global;
use text_base::{Bytes, NoMemory};
use xml_text::is_character;

/// The beginning of an attribute.
#[derive(Clone, Copy)]
pub struct First<'c> {
    /// From the white space before it on.
    pub left: &'c [char],
    /// From its name on.
    pub at: &'c [char],
    /// Its name.
    pub name: &'c [char],
    /// What stands behind its name.
    pub behind: &'c [char],
    ghost begins: { at.now ≡ beyond is_blank left.now },
    ghost named: { IsName at.now name.now behind.now },
}

impl<'c> First<'c> {
    /// The whole attribute, and what stands behind it; or why none stands there.
    pub fn whole(&self) -> Result<(Attribute<'c>, &'c [char]), AttributeReason>
        ensures whole { MatchResult result
            (λ z. IsWhole self.now.left.now (attribute_of z.0) z.1.now)
            (λ why. (entities : List (List ℕ)) (rules : List Declared) (done : List parts.Attribute)
            → IsWrong entities rules done self.now.left.now self.now.name.now
            self.now.behind.now why) }
        ensures name { IfOk result (λ z. (attribute_of z.0).name ≡ self.now.name.now) }
    {
        let (space, _) = split(self.left, Class::Blank);
        let (before_equals, at_equals) = split(self.behind, Class::Blank);
        let Some(('=', at_value)) = at_equals.split_first() else {
            return Err(AttributeReason::NoValue);
        };
        let (after_equals, at_quote) = split(at_value, Class::Blank);
        match quoted(at_quote) {
            Err(why) => Err(why),
            Ok((value, rest)) => Ok((
                Attribute {
                    space,
                    name: self.name,
                    before_equals,
                    after_equals,
                    value,
                },
                rest,
            )),
        }
    }
}

// A value in quotes, and what stands behind it; or why there is none.
fn quoted(cs: &[char]) -> Result<(Literal<'_>, &[char]), AttributeReason>
    ensures { MatchResult result
        (λ z. IsValue cs.now (literal_of z.0) z.1.now)
        (λ why. IsNoValue cs.now why) }
{
    let Some((quote, others)) = cs.split_first() else {
        return Err(AttributeReason::NoQuotes);
    };
    if !is_quote(*quote) {
        return Err(AttributeReason::NoQuotes);
    }
    let (text, end) = split(others, Class::Other(*quote));
    match end.split_first() {
        None => Err(AttributeReason::NotClosed),
        Some((_, rest)) => Ok((
            Literal {
                quote: *quote,
                text,
            },
            rest,
        )),
    }
}

/// What XML does not allow of a whole attribute.
pub fn text_fault(attribute: &Attribute<'_>) -> Option<AttributeReason>
    ensures { (entities : List (List ℕ)) (rules : List Declared) (done : List parts.Attribute)
        → IsJudged entities rules done (attribute_of attribute.now) result }
{
    let value = attribute.value.text;
    if !is_some(attribute.space) {
        return Some(AttributeReason::NoSpace);
    }
    if !are_characters(value) {
        return Some(AttributeReason::NotCharacter);
    }
    if has_less_than(value) {
        return Some(AttributeReason::LessThan);
    }
    if refers(value) {
        None
    } else {
        Some(AttributeReason::NotReference)
    }
}

fn are_characters(cs: &[char]) -> bool
    ensures { result ≡ list_all characters.is_character cs.now }
{
    cs.iter().all(|c| is_character(*c))
}

fn has_less_than(cs: &[char]) -> bool
    ensures { result ≡ list_any (λ c. c == 60) cs.now }
{
    cs.iter().any(|c| *c == '<')
}

/// What the definition does not allow of an attribute behind others, of which at most one has each
/// declared name.
pub fn declared_fault(
    alloc: Global,
    site: &Site<'_, '_>,
    rules: &Vec<AttrRule>,
    done: &[Attribute<'_>],
    attribute: &Attribute<'_>,
) -> Result<Option<AttributeReason>, NoMemory>
    requires { parts.refers_by references.is_reference attribute.now.value.text.now ≡ true }
    ensures { IfOk result (λ found. IfSome found
        (IsWrongWhole (table_at site.now).entities (map declared_of rules.now.items)
        (map attribute_of done.now) (attribute_of attribute.now))) }
{
    let value = attribute.value.text;
    let Some(rule) = find_declared(rules, attribute.name) else {
        return Ok(Some(AttributeReason::NotDeclared));
    };
    if stands(done, attribute.name) {
        return Ok(Some(AttributeReason::Twice));
    }
    if !refers_to_known(site.indexed, value) {
        return Ok(Some(AttributeReason::EntityNotDeclared));
    }
    if !has_kind(&rule.kind, value) {
        return Ok(Some(AttributeReason::NotOfType));
    }
    if has_fixed(alloc, &rule.need, value)? {
        Ok(None)
    } else {
        Ok(Some(AttributeReason::NotFixed))
    }
}

// Whether an attribute of this name is among these.
fn stands(attributes: &[Attribute<'_>], name: &[char]) -> bool
    ensures { result ≡ spec.stands (map attribute_of attributes.now) name.now }
{
    for attribute in attributes {
        if attribute.name == name {
            return true;
        }
    }
    false
}

/// Whether an attribute of this ASCII name is among these.
pub fn has_named(attributes: &[Attribute<'_>], name: &Bytes) -> bool
    ensures { result ≡ spec.stands (map attribute_of attributes.now) name.now }
{
    for attribute in attributes {
        if is_word(attribute.name, name.as_slice()) {
            return true;
        }
    }
    false
}
