//! The piece that is open.

ghost use Rattle.std.specs.Prelude.{◌≡◌, [], Some, IfOk, map};
ghost use Rattle.std.specs.List.{list_any};
ghost use Rattle.page_model.specs.Attributes as attributes;
ghost use Rattle.dtd_model.specs.Table.{declared_of, rule_of};
ghost use Rattle.dtd_model.specs.TableOf.{table_of};
ghost use Rattle.page_endings.specs.Ending as ending;
ghost use Rattle.page_model.specs.OpenTags as tags;
ghost use Rattle.page_steps.specs.TagSteps as steps;
ghost use Rattle.open_pieces.specs.Views.{plain_attribute, plain_doctype, plain_open};

use crate::attributes::{attribute_can_end, may_be_all};
use crate::beginnings::begins;
use crate::declared::is_element;
use crate::names::{any_element_begins, reference_can_end};
use crate::values::word_can_end;
use attribute_stepping::is_name_among;
use dtd_index::IndexedDtd;
use dtd_model::{AttrRule, ElementRule};
use open_pieces::{Characters, NameList, OpenAttribute, OpenDoctype, OpenPiece};
use page_rules::{element, is_word, must_stand};
use std::alloc::Global;
use text_base::{Bytes, NoMemory};

fn tag_can_end(
    alloc: Global,
    indexed: &IndexedDtd<'_>,
    name: &[char],
    names: &NameList,
    attribute: &OpenAttribute,
) -> Result<bool, NoMemory>
    ensures { IfOk result (λ is. is ≡ ending.tag_can_end (table_of indexed.now.dtd.now).entities
        name.now names.now (plain_attribute attribute.now)
        (attributes.find_rule (table_of indexed.now.dtd.now).elements name.now)) }
{
    let Some(element) = element(indexed, name) else {
        return Ok(false);
    };
    let rules = &indexed.dtd.elements[usize::from(element.0)].attributes;
    attribute_can_end(alloc, indexed, name, rules, names, attribute)
}

fn are_all(name: &[char], rules: &Vec<AttrRule>, names: &NameList) -> bool
    ensures { result ≡ steps.are_all name.now (map declared_of rules.now.items) names.now }
{
    for rule in rules {
        if must_stand(name, rule) && !is_name_among(names, &rule.name) {
            return false;
        }
    }
    true
}

fn empty_can_end(indexed: &IndexedDtd<'_>, name: &[char], names: &NameList) -> bool
    ensures { result ≡ ending.empty_can_end name.now names.now
        (attributes.find_rule (table_of indexed.now.dtd.now).elements name.now) }
{
    let Some(element) = element(indexed, name) else {
        return false;
    };
    are_all(
        name,
        &indexed.dtd.elements[usize::from(element.0)].attributes,
        names,
    )
}

// The characters of an ASCII name.
fn characters(alloc: Global, name: &Bytes) -> Result<Characters, NoMemory>
    ensures { IfOk result (λ cs. cs ≡ name.now) }
{
    let mut characters = Characters::new(alloc);
    for byte in name.as_slice() {
        characters.push(char::from(*byte))?;
    }
    Ok(characters)
}

fn element_can_begin(
    alloc: Global,
    indexed: &IndexedDtd<'_>,
    front: &[char],
    rule: &ElementRule,
) -> Result<bool, NoMemory>
    ensures { IfOk result (λ is. is ≡ ending.element_can_begin
        (table_of indexed.now.dtd.now).entities front.now (rule_of rule.now)) }
{
    if !begins(rule.name.as_slice(), front) {
        return Ok(false);
    }
    let tag = characters(alloc, &rule.name)?;
    let names = NameList::new(alloc);
    may_be_all(alloc, indexed, tag.as_slice(), &rule.attributes, &names)
}

fn any_can_begin(
    alloc: Global,
    indexed: &IndexedDtd<'_>,
    elements: &Vec<ElementRule>,
    front: &[char],
) -> Result<bool, NoMemory>
    ensures { IfOk result (λ is. is ≡ list_any (ending.element_can_begin
        (table_of indexed.now.dtd.now).entities front.now) (map rule_of elements.now.items)) }
{
    for rule in elements {
        if element_can_begin(alloc, indexed, front, rule)? {
            return Ok(true);
        }
    }
    Ok(false)
}

fn end_tag_can_end(indexed: &IndexedDtd<'_>, name: &[char], spaced: bool) -> bool
    ensures { result ≡ ending.end_tag_can_end (table_of indexed.now.dtd.now) name.now spaced }
{
    if spaced {
        is_element(indexed, name)
    } else {
        any_element_begins(&indexed.dtd.elements, name)
    }
}

// Whether the word may stand behind these.
fn may_follow(names: &NameList, word: &[u8]) -> bool
    ensures { result ≡ steps.may_be_word names.now word.now }
{
    match names.as_slice() {
        [] => word == b"version".as_slice(),
        [_] => word == b"encoding".as_slice() || word == b"standalone".as_slice(),
        [_, second] => {
            is_word(second.as_slice(), b"encoding") && word == b"standalone".as_slice()
        }
        [_, _, _, ..] => false,
    }
}

fn any_word(names: &NameList, front: &[char]) -> bool
    ensures { result ≡ ending.declared_word_can_end names.now (tags.in_attribute_name front.now) }
{
    (begins(b"version", front) && may_follow(names, b"version"))
        || ((begins(b"encoding", front) && may_follow(names, b"encoding"))
            || (begins(b"standalone", front) && may_follow(names, b"standalone")))
}

fn declared_word_can_end(names: &NameList, attribute: &OpenAttribute) -> bool
    ensures { result
        ≡ ending.declared_word_can_end names.now (plain_attribute attribute.now) }
{
    match attribute {
        OpenAttribute::Name(name) => any_word(names, name.as_slice()),
        OpenAttribute::Value(name, _, value) => word_can_end(name.as_slice(), value),
        OpenAttribute::Between(_) | OpenAttribute::BehindName(_) | OpenAttribute::BehindEquals(_) =>
            true,
    }
}

fn public_can_end(text: &[char]) -> bool
    ensures { result ≡ ending.public_can_end (Some text.now) }
{
    begins(b"-//W3C//DTD XHTML 1.0 Strict//EN", text)
}

fn doctype_can_end(doctype: &OpenDoctype) -> bool
    ensures { result ≡ ending.doctype_can_end (plain_doctype doctype.now) }
{
    match doctype {
        OpenDoctype::KeptPublic(_, text) => public_can_end(text.as_slice()),
        OpenDoctype::BeforeRoot(_)
        | OpenDoctype::Root(_)
        | OpenDoctype::BehindRoot
        | OpenDoctype::Word(_)
        | OpenDoctype::BehindWord(_)
        | OpenDoctype::FreePublic(_)
        | OpenDoctype::BehindPublic(_)
        | OpenDoctype::System(_)
        | OpenDoctype::BehindSystem => true,
    }
}

/// Whether a piece can still come of the open one. Time is linear in what is declared, times the
/// attributes of one element.
pub fn open_can_end(
    alloc: Global,
    indexed: &IndexedDtd<'_>,
    piece: &OpenPiece,
) -> Result<bool, NoMemory>
    ensures { IfOk result
        (λ is. is ≡ ending.open_can_end (table_of indexed.now.dtd.now) (plain_open piece.now)) }
{
    match piece {
        OpenPiece::Reference(reference) => {
            Ok(reference_can_end(&indexed.dtd.entities, reference))
        }
        OpenPiece::TagName(name) => {
            any_can_begin(alloc, indexed, &indexed.dtd.elements, name.as_slice())
        }
        OpenPiece::EndTag(name, spaced) => {
            Ok(end_tag_can_end(indexed, name.as_slice(), *spaced))
        }
        OpenPiece::Tag(name, names, attribute) => {
            tag_can_end(alloc, indexed, name.as_slice(), names, attribute)
        }
        OpenPiece::EmptyEnd(name, names) => Ok(empty_can_end(indexed, name.as_slice(), names)),
        OpenPiece::Declaration(names, attribute) => Ok(declared_word_can_end(names, attribute)),
        OpenPiece::Doctype(doctype) => Ok(doctype_can_end(doctype)),
        OpenPiece::Nothing
        | OpenPiece::Opener(_)
        | OpenPiece::Comment(_)
        | OpenPiece::Section(_)
        | OpenPiece::Target(_)
        | OpenPiece::OtherTarget
        | OpenPiece::BehindTarget
        | OpenPiece::Instruction(_)
        | OpenPiece::DeclarationEnd => Ok(true),
    }
}
