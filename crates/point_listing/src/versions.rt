//! The forms of what is said of a version, and of slots at points.

ghost use Rattle.std.specs.Prelude.{◌∷◌, [], OnOk};
ghost use Rattle.point_listing.specs.Views.{keys_seen};
ghost use Rattle.point_listing.specs.Reading.{read_at};
ghost use Rattle.loose_sets.specs.Members as spec;
ghost use Rattle.loose_sets.specs.Functions.{used_pairs, entry_forms};
ghost use Rattle.point_listing.specs.Places.{Adds};

use crate::{NamedForm, ToldKey, push_form, push_text_alone, version_read};
use loose_sets::{Aspect, Half, SetName, SetVersion};
use ssa_form::Versions;
use std::alloc::Global;
use text_base::{Bytes, NoMemory, Slot};

/// All members of a version, at any depth.
#[tactic(auto, using(crate::proofs::PlaceLemmas::ends), unfolding(loose_sets::specs::Members::members_forms, loose_sets::specs::Members::told_members))]
pub fn push_members(
    forms: &mut Vec<NamedForm>,
    told: &[ToldKey],
    half: Half,
    version: SetVersion,
) -> Result<(), NoMemory>
    ensures { OnOk result (Adds forms.old.items forms.new.items
        (spec.members_forms (keys_seen told.now) half version)) }
{
    push_form(
        forms,
        NamedForm::Same(SetName::Value(Aspect::Others(half), version)),
    )?;
    for (number, _) in told.iter().enumerate() {
        let member = Aspect::Member(number as u64, half);
        push_form(forms, NamedForm::Same(SetName::Value(member, version)))?;
    }
    Ok(())
}

/// What `echo` prints of a version: its text form, and `Array` for an array.
#[tactic(auto, using(crate::proofs::PlaceLemmas::ends), unfolding(loose_sets::specs::Members::shown_forms))]
pub fn push_shown(
    alloc: Global,
    forms: &mut Vec<NamedForm>,
    version: SetVersion,
) -> Result<(), NoMemory>
    ensures { OnOk result (Adds forms.old.items forms.new.items (spec.shown_forms version)) }
{
    let text = Aspect::Own(Half::Text);
    push_form(forms, NamedForm::Same(SetName::Value(text, version)))?;
    let word = Bytes::from_slice(alloc, b"Array")?;
    let array = Aspect::Own(Half::Array);
    push_form(
        forms,
        NamedForm::Where(word, SetName::Value(array, version)),
    )
}

/// A version that a join takes over.
pub fn push_link(
    forms: &mut Vec<NamedForm>,
    aspect: Aspect,
    version: SetVersion,
) -> Result<(), NoMemory>
    ensures { OnOk result
        (Adds forms.old.items forms.new.items (spec.link_form aspect version ∷ [])) }
{
    push_form(forms, NamedForm::Same(SetName::Value(aspect, version)))
}

/// The values of slots at points, by pairs of a point and a slot.
#[tactic(auto, using(crate::proofs::PlaceLemmas::ends))]
pub fn push_pairs(
    forms: &mut Vec<NamedForm>,
    versions: &Versions,
    pairs: &[(u64, u64)],
    aspect: Aspect,
) -> Result<(), NoMemory>
    ensures { OnOk result (Adds forms.old.items forms.new.items
        (used_pairs (read_at versions.now) pairs.now aspect)) }
{
    for (point, slot) in pairs {
        let version = version_read(versions, *point, Slot(*slot));
        push_form(forms, NamedForm::Same(SetName::Value(aspect, version)))?;
    }
    Ok(())
}

/// A slot at the entry of a function: what is handed in for it by pairs of a point and a slot, and
/// null where it is no parameter.
#[tactic(auto, using(crate::proofs::PlaceLemmas::ends), unfolding(loose_sets::specs::Uses::where_so))]
pub fn push_entry(
    alloc: Global,
    forms: &mut Vec<NamedForm>,
    versions: &Versions,
    pairs: &[(u64, u64)],
    is_null: bool,
    aspect: Aspect,
) -> Result<(), NoMemory>
    ensures { OnOk result (Adds forms.old.items forms.new.items
        (entry_forms (read_at versions.now) pairs.now is_null aspect)) }
{
    push_pairs(forms, versions, pairs, aspect)?;
    if is_null {
        push_text_alone(alloc, forms, b"", aspect)
    } else {
        Ok(())
    }
}
