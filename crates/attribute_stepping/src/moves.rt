//! One character more.

ghost use Rattle.std.specs.Prelude.{◌≡◌, IfOk};
ghost use Rattle.page_steps.specs.AttributeSteps as steps;
ghost use Rattle.open_pieces.specs.Views.{plain_attribute, plain_value};
ghost use Rattle.value_stepping.specs.Views.{plain_next};
ghost use Rattle.attribute_stepping.specs.Parts.{value_ended};
ghost use Rattle.attribute_stepping.specs.Views.{plain_allowing, plain_move};

use crate::allowed::Allowing;
use crate::outcome::AttributeMove;
use open_pieces::{Characters, NameList, OpenAttribute, OpenValue};
use page_rules::{begins_name, in_name, is_blank, is_quote};
use std::alloc::Global;
use text_base::NoMemory;

/// One character more among attributes, of which those of these names stand (XML 1.0, 3.1 and 2.8).
pub fn attribute_move(
    alloc: Global,
    allowing: &Allowing<'_, '_>,
    names: &NameList,
    inside: &OpenAttribute,
    c: char,
) -> Result<AttributeMove, NoMemory>
    ensures { IfOk result (λ m. plain_move m
        ≡ steps.attribute_move (plain_allowing allowing.now) names.now (plain_attribute inside.now)
        c) }
{
    match inside {
        OpenAttribute::Between(is_spaced) => between_move(alloc, *is_spaced, c),
        OpenAttribute::Name(name) => name_move(alloc, allowing, names, name, c),
        OpenAttribute::BehindName(name) => equals_move(alloc, name, c),
        OpenAttribute::BehindEquals(name) => quote_move(alloc, allowing, name, c),
        OpenAttribute::Value(name, quote, value) => {
            if c == *quote {
                value_end(alloc, allowing, names, name, value)
            } else {
                let next = allowing.step(alloc, name, value, c)?;
                valued(alloc, name, *quote, next)
            }
        }
    }
}

// Behind an attribute, or behind the name of the tag.
fn between_move(alloc: Global, is_spaced: bool, c: char) -> Result<AttributeMove, NoMemory>
    ensures { IfOk result (λ m. plain_move m ≡ steps.between_move is_spaced c) }
{
    if is_blank(c) {
        return Ok(AttributeMove::Stays(OpenAttribute::Between(true)));
    }
    if !begins_name(c) {
        return Ok(AttributeMove::Leaves);
    }
    if is_spaced {
        let name = Characters::new(alloc).with(alloc, c)?;
        Ok(AttributeMove::Stays(OpenAttribute::Name(name)))
    } else {
        Ok(AttributeMove::Stops)
    }
}

fn name_move(
    alloc: Global,
    allowing: &Allowing<'_, '_>,
    names: &NameList,
    name: &Characters,
    c: char,
) -> Result<AttributeMove, NoMemory>
    ensures { IfOk result
        (λ m. plain_move m ≡ steps.name_move (plain_allowing allowing.now) names.now name.now c) }
{
    if in_name(c) {
        let more = name.with(alloc, c)?;
        return Ok(AttributeMove::Stays(OpenAttribute::Name(more)));
    }
    if allowing.may(names, name) {
        equals_move(alloc, name, c)
    } else {
        Ok(AttributeMove::Stops)
    }
}

// Behind a name.
fn equals_move(alloc: Global, name: &Characters, c: char) -> Result<AttributeMove, NoMemory>
    ensures { IfOk result (λ m. plain_move m ≡ steps.equals_move name.now c) }
{
    if is_blank(c) {
        let name = name.copy(alloc)?;
        return Ok(AttributeMove::Stays(OpenAttribute::BehindName(name)));
    }
    if c == '=' {
        let name = name.copy(alloc)?;
        Ok(AttributeMove::Stays(OpenAttribute::BehindEquals(name)))
    } else {
        Ok(AttributeMove::Stops)
    }
}

fn quote_move(
    alloc: Global,
    allowing: &Allowing<'_, '_>,
    name: &Characters,
    c: char,
) -> Result<AttributeMove, NoMemory>
    ensures { IfOk result
        (λ m. plain_move m ≡ steps.quote_move (plain_allowing allowing.now) name.now c) }
{
    if is_blank(c) {
        let name = name.copy(alloc)?;
        return Ok(AttributeMove::Stays(OpenAttribute::BehindEquals(name)));
    }
    if is_quote(c) {
        let value = allowing.start(alloc, name);
        let name = name.copy(alloc)?;
        Ok(AttributeMove::Stays(OpenAttribute::Value(name, c, value)))
    } else {
        Ok(AttributeMove::Stops)
    }
}

// At the quote that ends a value.
fn value_end(
    alloc: Global,
    allowing: &Allowing<'_, '_>,
    names: &NameList,
    name: &Characters,
    value: &OpenValue,
) -> Result<AttributeMove, NoMemory>
    ensures { IfOk result
        (λ m. plain_move m ≡ value_ended (plain_allowing allowing.now) names.now name.now
        (plain_value value.now)) }
{
    if allowing.good(alloc, name, value)? {
        let more = allowing.added(alloc, names, name)?;
        Ok(AttributeMove::EndsWith(more))
    } else {
        Ok(AttributeMove::Stops)
    }
}

fn valued(
    alloc: Global,
    name: &Characters,
    quote: char,
    next: Option<OpenValue>,
) -> Result<AttributeMove, NoMemory>
    ensures { IfOk result (λ m. plain_move m ≡ steps.valued name.now quote (plain_next next)) }
{
    match next {
        None => Ok(AttributeMove::Stops),
        Some(value) => {
            let name = name.copy(alloc)?;
            Ok(AttributeMove::Stays(OpenAttribute::Value(name, quote, value)))
        }
    }
}
