//! The forms of keys and of array literals.

ghost use Rattle.std.specs.Prelude.{◌≡◌, flat_map, map, IfOk, OnOk, slice_get};
ghost use Rattle.flow_code.specs.View.{plain_item, plain_maybe_key};
ghost use Rattle.loose_sets.specs.Keys.{is_integer_key};
ghost use Rattle.loose_sets.specs.Uses as uses;
ghost use Rattle.loose_sets.specs.Arrays as arrays;
ghost use Rattle.point_listing.specs.Places.{told_of, at_of, Adds};

use crate::members::push_array_own;
use crate::places::Place;
use crate::pushing::{push_form, push_text, push_where};
use crate::{NamedForm, is_exactly, is_integer_key, may_be, may_be_other};
use flow_code::KeyRef;
use loose_sets::{Aspect, Half};
use plain_values::decimal;
use std::alloc::Global;
use text_base::{NoMemory, Slot};

/// May a written key, or the key that comes next, be the one of this number?
#[tactic(auto, unfolding(loose_sets::specs::Uses::may_be_at, loose_sets::specs::Uses::of_told))]
pub(crate) fn may_be_at(
    alloc: Global,
    place: &Place<'_>,
    key: &Option<KeyRef>,
    number: u64,
) -> Result<bool, NoMemory>
    ensures { IfOk result
        (λ r. r ≡ uses.may_be_at (told_of place.now) (plain_maybe_key key.now) number) }
{
    match place.told_key(number) {
        Some(told) => may_be(alloc, key, told),
        None => Ok(false),
    }
}

/// Is a written key a literal, and the key of this number?
#[tactic(auto, unfolding(loose_sets::specs::Arrays::is_exactly_at, loose_sets::specs::Uses::of_told))]
pub(crate) fn is_exactly_at(
    alloc: Global,
    place: &Place<'_>,
    key: &Option<KeyRef>,
    number: u64,
) -> Result<bool, NoMemory>
    ensures { IfOk result
        (λ r. r ≡ arrays.is_exactly_at (told_of place.now) (plain_maybe_key key.now) number) }
{
    match place.told_key(number) {
        Some(told) => is_exactly(alloc, key, told),
        None => Ok(false),
    }
}

/// Is the key of this number an integer?
#[tactic(auto, unfolding(loose_sets::specs::Uses::of_told))]
pub(crate) fn is_integer_at(place: &Place<'_>, number: u64) -> bool
    ensures { result ≡ uses.of_told is_integer_key (slice_get (told_of place.now) number) }
{
    match place.told_key(number) {
        Some(told) => is_integer_key(told),
        None => false,
    }
}

// The texts of a key that is a value: its text form, and `0`.
#[tactic(auto, using(crate::proofs::PlaceLemmas::ends), unfolding(loose_sets::specs::Arrays::key_forms))]
fn push_read_key(
    alloc: Global,
    forms: &mut Vec<NamedForm>,
    place: &Place<'_>,
    slot: Slot,
) -> Result<(), NoMemory>
    ensures { OnOk result (Adds forms.old.items forms.new.items
        (arrays.key_forms (at_of place.now) place.now.point
        (plain_maybe_key (Some (KeyRef.Read slot))))) }
{
    push_form(forms, place.used(Aspect::Own(Half::Text), slot))?;
    push_text(alloc, forms, b"0")
}

/// The texts of a key.
#[tactic(auto, using(crate::proofs::PlaceLemmas::ends), unfolding(loose_sets::specs::Arrays::key_forms))]
pub(crate) fn push_key(
    alloc: Global,
    forms: &mut Vec<NamedForm>,
    place: &Place<'_>,
    key: &Option<KeyRef>,
) -> Result<(), NoMemory>
    ensures { OnOk result (Adds forms.old.items forms.new.items
        (arrays.key_forms (at_of place.now) place.now.point (plain_maybe_key key.now))) }
{
    match key {
        Some(KeyRef::Int(number)) => {
            let text = decimal(alloc, *number)?;
            push_form(forms, NamedForm::Text(text))
        }
        Some(KeyRef::Text(text)) => push_text(alloc, forms, text.as_slice()),
        Some(KeyRef::Read(slot)) => push_read_key(alloc, forms, place, *slot),
        None => push_form(forms, NamedForm::Integer),
    }
}

// An item of an array literal, under the key of a number.
#[tactic(auto, unfolding(loose_sets::specs::Arrays::item_under))]
fn push_item_under(
    alloc: Global,
    forms: &mut Vec<NamedForm>,
    place: &Place<'_>,
    number: u64,
    half: Half,
    item: &(Option<KeyRef>, Slot),
) -> Result<(), NoMemory>
    ensures { OnOk result (Adds forms.old.items forms.new.items
        (arrays.item_under (told_of place.now) (at_of place.now) place.now.point number half
        (plain_item item.now))) }
{
    let may_be = may_be_at(alloc, place, &item.0, number)?;
    push_where(forms, may_be, place.used(Aspect::Own(half), item.1))
}

// Elsewhere.
#[tactic(auto, using(crate::proofs::PlaceLemmas::ends), unfolding(loose_sets::specs::Arrays::item_elsewhere))]
fn push_item_elsewhere(
    alloc: Global,
    forms: &mut Vec<NamedForm>,
    place: &Place<'_>,
    half: Half,
    item: &(Option<KeyRef>, Slot),
) -> Result<(), NoMemory>
    ensures { OnOk result (Adds forms.old.items forms.new.items
        (arrays.item_elsewhere (told_of place.now) (at_of place.now) place.now.point half
        (plain_item item.now))) }
{
    let is_other = may_be_other(alloc, &item.0, place.told)?;
    push_where(forms, is_other, place.used(Aspect::Own(half), item.1))?;
    push_form(forms, place.all_used(half, item.1))
}

// Its keys.
#[tactic(auto, using(crate::proofs::PlaceLemmas::ends), unfolding(loose_sets::specs::Arrays::item_keys))]
fn push_item_keys(
    alloc: Global,
    forms: &mut Vec<NamedForm>,
    place: &Place<'_>,
    item: &(Option<KeyRef>, Slot),
) -> Result<(), NoMemory>
    ensures { OnOk result (Adds forms.old.items forms.new.items
        (arrays.item_keys (at_of place.now) place.now.point (plain_item item.now))) }
{
    push_form(forms, place.used(Aspect::Keys, item.1))?;
    push_key(alloc, forms, place, &item.0)
}

// The items under the key of a number.
#[tactic(auto, using(crate::proofs::PlaceLemmas::ends))]
fn push_items_under(
    alloc: Global,
    forms: &mut Vec<NamedForm>,
    place: &Place<'_>,
    number: u64,
    half: Half,
    items: &[(Option<KeyRef>, Slot)],
) -> Result<(), NoMemory>
    ensures { OnOk result (Adds forms.old.items forms.new.items
        (flat_map (arrays.item_under (told_of place.now) (at_of place.now) place.now.point number
        half) (map plain_item items.now))) }
{
    for item in items {
        push_item_under(alloc, forms, place, number, half, item)?;
    }
    Ok(())
}

// The items elsewhere.
#[tactic(auto, using(crate::proofs::PlaceLemmas::ends))]
fn push_items_elsewhere(
    alloc: Global,
    forms: &mut Vec<NamedForm>,
    place: &Place<'_>,
    half: Half,
    items: &[(Option<KeyRef>, Slot)],
) -> Result<(), NoMemory>
    ensures { OnOk result (Adds forms.old.items forms.new.items
        (flat_map (arrays.item_elsewhere (told_of place.now) (at_of place.now) place.now.point half)
        (map plain_item items.now))) }
{
    for item in items {
        push_item_elsewhere(alloc, forms, place, half, item)?;
    }
    Ok(())
}

// The keys of the items.
#[tactic(auto, using(crate::proofs::PlaceLemmas::ends))]
fn push_items_keys(
    alloc: Global,
    forms: &mut Vec<NamedForm>,
    place: &Place<'_>,
    items: &[(Option<KeyRef>, Slot)],
) -> Result<(), NoMemory>
    ensures { OnOk result (Adds forms.old.items forms.new.items
        (flat_map (arrays.item_keys (at_of place.now) place.now.point) (map plain_item items.now))) }
{
    for item in items {
        push_item_keys(alloc, forms, place, item)?;
    }
    Ok(())
}

/// An array literal.
#[tactic(auto, unfolding(loose_sets::specs::Arrays::array_forms))]
pub(crate) fn push_array(
    alloc: Global,
    forms: &mut Vec<NamedForm>,
    place: &Place<'_>,
    items: &[(Option<KeyRef>, Slot)],
    aspect: Aspect,
) -> Result<(), NoMemory>
    ensures { OnOk result (Adds forms.old.items forms.new.items
        (arrays.array_forms (told_of place.now) (at_of place.now) place.now.point
        (map plain_item items.now) aspect)) }
{
    match aspect {
        Aspect::Own(half) => push_array_own(forms, half),
        Aspect::Member(number, half) => {
            push_items_under(alloc, forms, place, number, half, items)
        }
        Aspect::Others(half) => push_items_elsewhere(alloc, forms, place, half, items),
        Aspect::Keys => push_items_keys(alloc, forms, place, items),
    }
}
