//! The forms of a member of a value.

ghost use Rattle.std.specs.Prelude.{◌≡◌, IfOk, OnOk};
ghost use Rattle.flow_code.specs.View.{plain_key_ref};
ghost use Rattle.loose_sets.specs.Uses as uses;
ghost use Rattle.loose_sets.specs.Arrays as arrays;
ghost use Rattle.point_listing.specs.Places.{told_of, at_of, Adds, member_placed};

use crate::places::Place;
use crate::pushing::{push_form, push_text};
use crate::{NamedForm, place_of_key};
use flow_code::KeyRef;
use loose_sets::{Aspect, Half, SetName, SetVersion};
use std::alloc::Global;
use text_base::{NoMemory, Slot};

/// What is said of a value that is an array.
#[tactic(auto, using(crate::proofs::PlaceLemmas::ends), unfolding(loose_sets::specs::Arrays::array_own))]
pub(crate) fn push_array_own(forms: &mut Vec<NamedForm>, half: Half) -> Result<(), NoMemory>
    ensures { OnOk result (Adds forms.old.items forms.new.items (arrays.array_own half)) }
{
    match half {
        Half::Text => Ok(()),
        Half::Array => push_form(forms, NamedForm::Yes),
    }
}

// Null, where the key is not there.
#[tactic(auto, using(crate::proofs::PlaceLemmas::ends), unfolding(loose_sets::specs::Arrays::null_own))]
fn push_null_own(alloc: Global, forms: &mut Vec<NamedForm>, half: Half) -> Result<(), NoMemory>
    ensures { OnOk result (Adds forms.old.items forms.new.items (arrays.null_own half)) }
{
    match half {
        Half::Text => push_text(alloc, forms, b""),
        Half::Array => Ok(()),
    }
}

// The member of a version whose key has this place among those that are told apart.
fn member_at(half: Half, version: SetVersion, place: Option<Option<u64>>) -> SetName
    ensures { result ≡ member_placed half version place }
{
    match place {
        None => SetName::Members(half, version),
        Some(None) => SetName::Value(Aspect::Others(half), version),
        Some(Some(number)) => SetName::Value(Aspect::Member(number, half), version),
    }
}

// The member of a slot under a key.
#[tactic(auto, using(crate::proofs::PlaceLemmas::by_place), unfolding(loose_sets::specs::Uses::member_name))]
fn member_name(
    alloc: Global,
    place: &Place<'_>,
    half: Half,
    key: &KeyRef,
    slot: Slot,
) -> Result<SetName, NoMemory>
    ensures { IfOk result (λ name. name ≡ uses.member_name (told_of place.now) (at_of place.now)
        place.now.point half (plain_key_ref key.now) slot.0) }
{
    let stands = place_of_key(alloc, key, place.told)?;
    Ok(member_at(half, place.version(slot), stands))
}

// The member itself, and null where the key is not there.
#[tactic(auto, using(crate::proofs::PlaceLemmas::ends), unfolding(loose_sets::specs::Arrays::member_forms))]
fn push_member_own(
    alloc: Global,
    forms: &mut Vec<NamedForm>,
    place: &Place<'_>,
    slot: Slot,
    key: &KeyRef,
    half: Half,
) -> Result<(), NoMemory>
    ensures { OnOk result (Adds forms.old.items forms.new.items
        (arrays.member_forms (told_of place.now) (at_of place.now) place.now.point slot.0
        (plain_key_ref key.now) (Aspect.Own half))) }
{
    let name = member_name(alloc, place, half, key, slot)?;
    push_form(forms, NamedForm::Same(name))?;
    push_null_own(alloc, forms, half)
}

/// The member of a value under a key.
#[tactic(auto, using(crate::proofs::PlaceLemmas::ends), unfolding(loose_sets::specs::Arrays::member_forms))]
pub(crate) fn push_member(
    alloc: Global,
    forms: &mut Vec<NamedForm>,
    place: &Place<'_>,
    slot: Slot,
    key: &KeyRef,
    aspect: Aspect,
) -> Result<(), NoMemory>
    ensures { OnOk result (Adds forms.old.items forms.new.items
        (arrays.member_forms (told_of place.now) (at_of place.now) place.now.point slot.0
        (plain_key_ref key.now) aspect)) }
{
    match aspect {
        Aspect::Own(half) => push_member_own(alloc, forms, place, slot, key, half),
        Aspect::Member(_, half) | Aspect::Others(half) => {
            push_form(forms, place.used(Aspect::Others(half), slot))
        }
        Aspect::Keys => push_form(forms, place.used(Aspect::Keys, slot)),
    }
}
