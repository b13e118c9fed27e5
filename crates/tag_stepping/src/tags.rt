//! Start tags, and tags of empty elements.

ghost use Rattle.std.specs.Prelude.{◌≡◌, IfOk, Some};
ghost use Rattle.dtd_model.specs.Table.{Table, rule_of};
ghost use Rattle.dtd_model.specs.TableOf.{table_of};
ghost use Rattle.page_model.specs.Attributes.{find_rule};
ghost use Rattle.page_model.specs.PageTokens.{element_of};
ghost use Rattle.page_steps.specs.PageSteps as steps;
ghost use Rattle.open_pieces.specs.Views.{plain_attribute};
ghost use Rattle.attribute_stepping.specs.Views as attributes;
ghost use Rattle.remark_stepping.specs.Views.{plain_move};

use crate::element::TagElement;
use crate::finding::{are_all, declared};
use attribute_stepping::{Allowing, AttributeMove, attribute_move};
use byte_readers::Emit;
use dtd_index::IndexedDtd;
use open_pieces::{Characters, NameList, OpenAttribute, OpenPiece, PagePlace};
use page_rules::in_name;
use remark_stepping::PageMove;
use std::alloc::Global;
use text_base::{NoMemory, PageToken};

/// Behind `<` and so much of a name (XML 1.0, 3.1).
pub fn tag_name_move(
    alloc: Global,
    indexed: &IndexedDtd<'_>,
    name: &Characters,
    c: char,
) -> Result<PageMove, NoMemory>
    ensures { IfOk result
        (λ m. plain_move m ≡ steps.tag_name_move (table_of indexed.now.dtd.now) name.now c) }
{
    if in_name(c) {
        let more = name.with(alloc, c)?;
        return Ok(PageMove::Go(OpenPiece::TagName(more)));
    }
    let names = NameList::new(alloc);
    let between = OpenAttribute::Between(false);
    tag_move(alloc, indexed, name, &names, &between, c)
}

/// In a tag of this element, with attributes of these names.
pub fn tag_move(
    alloc: Global,
    indexed: &IndexedDtd<'_>,
    name: &Characters,
    names: &NameList,
    inside: &OpenAttribute,
    c: char,
) -> Result<PageMove, NoMemory>
    ensures { IfOk result
        (λ m. plain_move m ≡ steps.tag_move (table_of indexed.now.dtd.now) name.now names.now
        (plain_attribute inside.now) c
        (find_rule (table_of indexed.now.dtd.now).elements name.now)) }
{
    match declared(indexed, name.as_slice()) {
        None => Ok(PageMove::Fail),
        Some(found) => {
            let allowing = Allowing::Element(indexed, &found.rule.attributes);
            let moved = attribute_move(alloc, &allowing, names, inside, c)?;
            tag_by(alloc, found, name, names, c, moved)
        }
    }
}

fn tag_by(
    alloc: Global,
    found: TagElement<'_>,
    name: &Characters,
    names: &NameList,
    c: char,
    moved: AttributeMove,
) -> Result<PageMove, NoMemory>
    ensures { (table : Table) → found.entry.element ≡ element_of table name.now
        → IfOk result (λ m. plain_move m
        ≡ steps.tag_by table name.now (rule_of found.entry.rule.now) names.now c
        (attributes.plain_move moved)) }
{
    match moved {
        AttributeMove::Stays(inside) => {
            let name = name.copy(alloc)?;
            let names = names.copy(alloc)?;
            Ok(PageMove::Go(OpenPiece::Tag(name, names, inside)))
        }
        AttributeMove::EndsWith(more) => {
            let name = name.copy(alloc)?;
            let between = OpenAttribute::Between(false);
            Ok(PageMove::Go(OpenPiece::Tag(name, more, between)))
        }
        AttributeMove::Leaves => end_move(alloc, found, name, names, c),
        AttributeMove::Stops => Ok(PageMove::Fail),
    }
}

// `>` and `/` behind attributes.
fn end_move(
    alloc: Global,
    found: TagElement<'_>,
    name: &Characters,
    names: &NameList,
    c: char,
) -> Result<PageMove, NoMemory>
    ensures { (table : Table) → found.entry.element ≡ element_of table name.now
        → IfOk result (λ m. plain_move m
        ≡ steps.end_move table name.now (rule_of found.entry.rule.now) names.now c) }
{
    if c == '>' && are_all(name.as_slice(), &found.rule.attributes, names) {
        let start = Emit::One(PageToken::Start(found.element));
        return Ok(PageMove::Done(PagePlace::Behind(0), start));
    }
    if c == '/' {
        let name = name.copy(alloc)?;
        let names = names.copy(alloc)?;
        Ok(PageMove::Go(OpenPiece::EmptyEnd(name, names)))
    } else {
        Ok(PageMove::Fail)
    }
}

/// Behind the `/` of an empty tag, with attributes of these names.
pub fn empty_move(
    indexed: &IndexedDtd<'_>,
    name: &Characters,
    names: &NameList,
    c: char,
) -> PageMove
    ensures { plain_move result
        ≡ steps.empty_move (table_of indexed.now.dtd.now) name.now names.now c
        (find_rule (table_of indexed.now.dtd.now).elements name.now) }
{
    match declared(indexed, name.as_slice()) {
        None => PageMove::Fail,
        Some(found) => empty_end(found, name, names, c),
    }
}

fn empty_end(found: TagElement<'_>, name: &Characters, names: &NameList, c: char) -> PageMove
    ensures { (table : Table) → found.entry.element ≡ element_of table name.now → plain_move result
        ≡ steps.empty_move table name.now names.now c (Some (rule_of found.entry.rule.now)) }
{
    if c == '>' && are_all(name.as_slice(), &found.rule.attributes, names) {
        let start = PageToken::Start(found.element);
        let end = PageToken::End(found.element);
        PageMove::Done(PagePlace::Behind(0), Emit::Two(start, end))
    } else {
        PageMove::Fail
    }
}
