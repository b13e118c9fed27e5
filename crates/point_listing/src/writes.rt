//! The forms of a value with another one written in.

ghost use Rattle.std.specs.Prelude.{◌∷◌, [], flat_map, map, OnOk};
ghost use Rattle.flow_code.specs.View.{plain_maybe_key};
ghost use Rattle.loose_sets.specs.Arrays as arrays;
ghost use Rattle.point_listing.specs.Places.{told_of, at_of, Adds};

use crate::arrays::{is_exactly_at, may_be_at, push_key};
use crate::members::push_array_own;
use crate::places::Place;
use crate::pushing::{push_form, push_where};
use crate::{NamedForm, may_be_other};
use flow_code::KeyRef;
use loose_sets::{Aspect, Half};
use std::alloc::Global;
use text_base::{NoMemory, Slot};

/// The slot of the old value, and of the value that is written into it.
#[derive(Clone, Copy)]
pub(crate) struct Write {
    pub from: Slot,
    pub value: Slot,
}

// Under one key, the member of a number: the old one where the key may be another, and the new one
// where it may be this one.
#[tactic(auto, using(crate::proofs::PlaceLemmas::ends), unfolding(loose_sets::specs::Arrays::put_under))]
fn push_put_under(
    alloc: Global,
    forms: &mut Vec<NamedForm>,
    place: &Place<'_>,
    write: Write,
    key: &Option<KeyRef>,
    number: u64,
    half: Half,
) -> Result<(), NoMemory>
    ensures { OnOk result (Adds forms.old.items forms.new.items
        (arrays.put_under (told_of place.now) (at_of place.now) place.now.point write.from.0
        (plain_maybe_key key.now) write.value.0 number half)) }
{
    let is_this = is_exactly_at(alloc, place, key, number)?;
    push_where(
        forms,
        !is_this,
        place.used(Aspect::Member(number, half), write.from),
    )?;
    let may_be = may_be_at(alloc, place, key, number)?;
    push_where(forms, may_be, place.used(Aspect::Own(half), write.value))
}

// Under one key, the other members.
#[tactic(auto, using(crate::proofs::PlaceLemmas::ends), unfolding(loose_sets::specs::Arrays::put_elsewhere))]
fn push_put_elsewhere(
    alloc: Global,
    forms: &mut Vec<NamedForm>,
    place: &Place<'_>,
    write: Write,
    key: &Option<KeyRef>,
    half: Half,
) -> Result<(), NoMemory>
    ensures { OnOk result (Adds forms.old.items forms.new.items
        (arrays.put_elsewhere (told_of place.now) (at_of place.now) place.now.point write.from.0
        (plain_maybe_key key.now) write.value.0 half)) }
{
    push_form(forms, place.used(Aspect::Others(half), write.from))?;
    push_form(forms, place.all_used(half, write.value))?;
    let is_other = may_be_other(alloc, key, place.told)?;
    push_where(forms, is_other, place.used(Aspect::Own(half), write.value))
}

// Deeper, the member of a number: it is an array where the first key may be this one.
#[tactic(auto, using(crate::proofs::PlaceLemmas::ends), unfolding(loose_sets::specs::Arrays::deep_under, loose_sets::specs::Uses::where_so))]
fn push_deep_under(
    alloc: Global,
    forms: &mut Vec<NamedForm>,
    place: &Place<'_>,
    from: Slot,
    key: &Option<KeyRef>,
    number: u64,
    half: Half,
) -> Result<(), NoMemory>
    ensures { OnOk result (Adds forms.old.items forms.new.items
        (arrays.deep_under (told_of place.now) (at_of place.now) place.now.point from.0
        (plain_maybe_key key.now) number half)) }
{
    push_form(forms, place.used(Aspect::Member(number, half), from))?;
    if may_be_at(alloc, place, key, number)? {
        push_array_own(forms, half)
    } else {
        Ok(())
    }
}

// Deeper, the other members.
#[tactic(auto, using(crate::proofs::PlaceLemmas::ends), unfolding(loose_sets::specs::Arrays::deep_elsewhere))]
fn push_deep_elsewhere(
    forms: &mut Vec<NamedForm>,
    place: &Place<'_>,
    write: Write,
    half: Half,
) -> Result<(), NoMemory>
    ensures { OnOk result (Adds forms.old.items forms.new.items
        (arrays.deep_elsewhere (at_of place.now) place.now.point write.from.0 write.value.0 half)) }
{
    push_form(forms, place.used(Aspect::Others(half), write.from))?;
    push_form(forms, place.all_used(half, write.value))?;
    push_form(forms, place.used(Aspect::Own(half), write.value))?;
    push_array_own(forms, half)
}

// The keys of a path.
#[tactic(auto, using(crate::proofs::PlaceLemmas::ends))]
fn push_path_keys(
    alloc: Global,
    forms: &mut Vec<NamedForm>,
    place: &Place<'_>,
    path: &[Option<KeyRef>],
) -> Result<(), NoMemory>
    ensures { OnOk result (Adds forms.old.items forms.new.items
        (flat_map (arrays.key_forms (at_of place.now) place.now.point)
        (map plain_maybe_key path.now))) }
{
    for key in path {
        push_key(alloc, forms, place, key)?;
    }
    Ok(())
}

// The keys, of both values and of the path.
#[tactic(auto, using(crate::proofs::PlaceLemmas::ends), unfolding(loose_sets::specs::Arrays::put_keys))]
fn push_put_keys(
    alloc: Global,
    forms: &mut Vec<NamedForm>,
    place: &Place<'_>,
    write: Write,
    path: &[Option<KeyRef>],
) -> Result<(), NoMemory>
    ensures { OnOk result (Adds forms.old.items forms.new.items
        (arrays.put_keys (at_of place.now) place.now.point write.from.0
        (map plain_maybe_key path.now) write.value.0)) }
{
    push_form(forms, place.used(Aspect::Keys, write.from))?;
    push_form(forms, place.used(Aspect::Keys, write.value))?;
    push_path_keys(alloc, forms, place, path)
}

// The value itself is an array.
#[tactic(auto, unfolding(loose_sets::specs::Arrays::put_forms))]
fn push_put_own(
    forms: &mut Vec<NamedForm>,
    place: &Place<'_>,
    write: Write,
    path: &[Option<KeyRef>],
    half: Half,
) -> Result<(), NoMemory>
    ensures { OnOk result (Adds forms.old.items forms.new.items
        (arrays.put_forms (told_of place.now) (at_of place.now) place.now.point write.from.0
        (map plain_maybe_key path.now) write.value.0 (Aspect.Own half))) }
{
    match path.split_first() {
        None => Ok(()),
        Some(_) => push_array_own(forms, half),
    }
}

// The member of a number.
#[tactic(auto, using(crate::proofs::PlaceLemmas::ends), unfolding(loose_sets::specs::Arrays::put_forms))]
fn push_put_member(
    alloc: Global,
    forms: &mut Vec<NamedForm>,
    place: &Place<'_>,
    write: Write,
    path: &[Option<KeyRef>],
    number: u64,
    half: Half,
) -> Result<(), NoMemory>
    ensures { OnOk result (Adds forms.old.items forms.new.items
        (arrays.put_forms (told_of place.now) (at_of place.now) place.now.point write.from.0
        (map plain_maybe_key path.now) write.value.0 (Aspect.Member number half))) }
{
    let Some((key, rest)) = path.split_first() else {
        return Ok(());
    };
    if rest.is_empty() {
        push_put_under(alloc, forms, place, write, key, number, half)
    } else {
        push_deep_under(alloc, forms, place, write.from, key, number, half)
    }
}

// The other members.
#[tactic(auto, using(crate::proofs::PlaceLemmas::ends), unfolding(loose_sets::specs::Arrays::put_forms))]
fn push_put_others(
    alloc: Global,
    forms: &mut Vec<NamedForm>,
    place: &Place<'_>,
    write: Write,
    path: &[Option<KeyRef>],
    half: Half,
) -> Result<(), NoMemory>
    ensures { OnOk result (Adds forms.old.items forms.new.items
        (arrays.put_forms (told_of place.now) (at_of place.now) place.now.point write.from.0
        (map plain_maybe_key path.now) write.value.0 (Aspect.Others half))) }
{
    let Some((key, rest)) = path.split_first() else {
        return Ok(());
    };
    if rest.is_empty() {
        push_put_elsewhere(alloc, forms, place, write, key, half)
    } else {
        push_deep_elsewhere(forms, place, write, half)
    }
}

// The keys, where there is a path.
#[tactic(auto, using(crate::proofs::PlaceLemmas::ends), unfolding(loose_sets::specs::Arrays::put_forms))]
fn push_put_all_keys(
    alloc: Global,
    forms: &mut Vec<NamedForm>,
    place: &Place<'_>,
    write: Write,
    path: &[Option<KeyRef>],
) -> Result<(), NoMemory>
    ensures { OnOk result (Adds forms.old.items forms.new.items
        (arrays.put_forms (told_of place.now) (at_of place.now) place.now.point write.from.0
        (map plain_maybe_key path.now) write.value.0 Aspect.Keys)) }
{
    match path.split_first() {
        None => Ok(()),
        Some(_) => push_put_keys(alloc, forms, place, write, path),
    }
}

/// A value with another one written in at the end of a path of keys.
pub(crate) fn push_put(
    alloc: Global,
    forms: &mut Vec<NamedForm>,
    place: &Place<'_>,
    write: Write,
    path: &[Option<KeyRef>],
    aspect: Aspect,
) -> Result<(), NoMemory>
    ensures { OnOk result (Adds forms.old.items forms.new.items
        (arrays.put_forms (told_of place.now) (at_of place.now) place.now.point write.from.0
        (map plain_maybe_key path.now) write.value.0 aspect)) }
{
    match aspect {
        Aspect::Own(half) => push_put_own(forms, place, write, path, half),
        Aspect::Member(number, half) => {
            push_put_member(alloc, forms, place, write, path, number, half)
        }
        Aspect::Others(half) => push_put_others(alloc, forms, place, write, path, half),
        Aspect::Keys => push_put_all_keys(alloc, forms, place, write, path),
    }
}
