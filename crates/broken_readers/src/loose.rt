//! The loose forms in an arena (crate broken_forms).

ghost use Rattle.std.specs.Prelude.{◌≡◌, IfOk, map, OnOk};
ghost use Rattle.broken_forms.specs.LooseForms as spec;
ghost use Rattle.derivatives.specs.Standing.{expr_at};
ghost use Rattle.dtd_model.specs.Table.{rule_of};
ghost use Rattle.dtd_model.specs.TableOf.{table_of};
ghost use Rattle.form_maker.specs.Classes as bases;
ghost use Rattle.form_maker.specs.Kept.{keeping};
ghost use Rattle.form_maker.specs.Making.{making_of, pushed};
ghost use Rattle.broken_readers.specs.Kept.{kept_forms, tag_forms};

use crate::coarse::{close, open, values};
use dtd_model::{Dtd, ElementRule};
use form_maker::{Base, ByteClass, Made, Maker, WordTest};
use std::alloc::Global;
use text_base::{Bytes, NoMemory};

/// Attributes of any names, with any values.
fn attribute(maker: &mut Maker) -> Result<(), NoMemory>
    ensures { OnOk result
        (making_of maker.new ≡ pushed spec.loose_attribute (making_of maker.old)) }
{
    maker.gap()?;
    maker.name_by(ByteClass::NameStart)?;
    values(maker)?;
    maker.behind_equals()?;
    maker.chain()?;
    maker.chain()?;
    Ok(())
}

/// What stands behind the name of a tag.
fn behind_name(maker: &mut Maker) -> Result<(), NoMemory>
    ensures { OnOk result (making_of maker.new ≡ pushed spec.behind_name (making_of maker.old)) }
{
    attribute(maker)?;
    maker.star()?;
    maker.blanks()?;
    maker.word(b">")?;
    maker.word(b"/>")?;
    maker.either()?;
    maker.chain()?;
    maker.chain()?;
    Ok(())
}

/// The names of elements.
fn names(alloc: Global, elements: &[ElementRule]) -> Result<Vec<Bytes>, NoMemory>
    ensures { IfOk result
        (λ names. names.items ≡ map (λ rule. rule.name) (map rule_of elements.now)) }
{
    let mut names = Vec::new(alloc);
    let mut left = elements;
    while let Some((first, others)) = left.split_first() {
        names.push(first.name.copy(alloc)?)?;
        left = others;
    }
    Ok(names)
}

/// Tags of elements of these names.
#[tactic(auto, unfolding(broken_forms::specs::LooseForms::loose_tag_form))]
fn tag(maker: &mut Maker, names: &[Bytes]) -> Result<(), NoMemory>
    ensures { OnOk result
        (making_of maker.new ≡ pushed (spec.loose_tag_form names.now) (making_of maker.old)) }
{
    maker.one_of(WordTest::Name, names)?;
    behind_name(maker)?;
    maker.chain()?;
    open(maker, b"<")?;
    Ok(())
}

/// End tags of elements of these names.
#[tactic(auto, unfolding(broken_forms::specs::LooseForms::end_form))]
fn end_tag(maker: &mut Maker, names: &[Bytes]) -> Result<(), NoMemory>
    ensures { OnOk result
        (making_of maker.new ≡ pushed (spec.end_form names.now) (making_of maker.old)) }
{
    maker.one_of(WordTest::Name, names)?;
    maker.blanks()?;
    close(maker, b">")?;
    maker.chain()?;
    open(maker, b"</")?;
    Ok(())
}

/// One digit or more.
fn digits(maker: &mut Maker, base: Base) -> Result<(), NoMemory>
    ensures { OnOk result
        (making_of maker.new ≡ pushed (spec.some_digits (bases.is_digit base))
        (making_of maker.old)) }
{
    maker.ascii(&base)?;
    maker.ascii(&base)?;
    maker.star()?;
    maker.chain()?;
    Ok(())
}

/// `#` and any digits, or `#x` and any hexadecimal ones.
fn numbers(maker: &mut Maker) -> Result<(), NoMemory>
    ensures { OnOk result (making_of maker.new ≡ pushed spec.loose_number (making_of maker.old)) }
{
    digits(maker, Base::Decimal)?;
    digits(maker, Base::Hexadecimal)?;
    open(maker, b"x")?;
    maker.either()?;
    open(maker, b"#")?;
    Ok(())
}

/// References to known entities, and by any numbers.
#[tactic(auto, unfolding(broken_forms::specs::LooseForms::loose_reference_form))]
fn reference(maker: &mut Maker, entities: &[Bytes]) -> Result<(), NoMemory>
    ensures { OnOk result
        (making_of maker.new ≡ pushed (spec.loose_reference_form entities.now)
        (making_of maker.old)) }
{
    maker.entity(entities)?;
    numbers(maker)?;
    maker.either_before()?;
    close(maker, b";")?;
    open(maker, b"&")?;
    Ok(())
}

/// Keeps the forms of references and of tags.
fn tags(alloc: Global, maker: &mut Maker, dtd: &Dtd) -> Result<(), NoMemory>
    ensures { OnOk result
        (making_of maker.new ≡ keeping (tag_forms (table_of dtd.now)) (making_of maker.old)) }
{
    let names = names(alloc, dtd.elements.as_slice())?;
    reference(maker, dtd.entities.as_slice())?;
    maker.keep()?;
    tag(maker, names.as_slice())?;
    maker.keep()?;
    end_tag(maker, names.as_slice())?;
    maker.keep()?;
    Ok(())
}

/// All loose forms by a definition of documents.
pub fn loose(alloc: Global, dtd: &Dtd) -> Result<Made, NoMemory>
    ensures { IfOk result
        (λ made. map (expr_at made.arena) made.numbers.items ≡ kept_forms (table_of dtd.now)) }
{
    let mut maker = Maker::new(alloc);
    maker.simple(dtd.doctype)?;
    tags(alloc, &mut maker, dtd)?;
    Ok(maker.finish())
}
