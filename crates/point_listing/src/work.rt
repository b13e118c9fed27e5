//! The forms of the sets that belong to the work of a point.

ghost use Rattle.std.specs.Prelude.{◌≡◌, ◌∷◌, map, length, slice_get, OnOk, Some, None, MatchOption};
ghost use Rattle.flow_code.specs.View.{plain_point, slot_number, maybe_slot};
ghost use Rattle.loose_sets.specs.Keys.{listed};
ghost use Rattle.loose_sets.specs.Points as points;
ghost use Rattle.point_listing.specs.Places.{at_of, Adds};

use crate::parts::{Operation, imploded_slots, joined_slots, operation_of, source_at};
use crate::{NamedForm, Place, push_form, push_text, push_where};
use flow_code::FlowPoint;
use loose_sets::{Aspect, Half, SetName};
use std::alloc::Global;
use text_base::{Bytes, NoMemory, Slot};

const TEXT: Aspect = Aspect::Own(Half::Text);

// The texts from the value of a place on, where these values are joined.
fn push_joined_parts(
    alloc: Global,
    forms: &mut Vec<NamedForm>,
    place: &Place<'_>,
    parts: &[Slot],
    number: u64,
) -> Result<(), NoMemory>
    ensures { OnOk result (Adds forms.old.items forms.new.items
        (points.joined_from_place (at_of place.now) place.now.point number
        (length (map slot_number parts.now)) (slice_get (map slot_number parts.now) number))) }
{
    match parts.get(number as usize) {
        Some(slot) => {
            let shown = SetName::Shown(place.version(*slot));
            push_form(
                forms,
                NamedForm::Join(shown, SetName::Joined(place.point, number + 1)),
            )
        }
        None => {
            let is_end = number == parts.len() as u64;
            push_where(forms, is_end, NamedForm::Text(Bytes::new(alloc)))
        }
    }
}

/// At a point that joins values: the texts from the value of a place on.
#[tactic(auto, using(crate::proofs::PlaceLemmas::ends), unfolding(loose_sets::specs::Points::joined_forms, loose_sets::specs::Points::joined_slots))]
pub fn push_joined(
    alloc: Global,
    forms: &mut Vec<NamedForm>,
    place: &Place<'_>,
    point: &FlowPoint,
    number: u64,
) -> Result<(), NoMemory>
    ensures { OnOk result (Adds forms.old.items forms.new.items
        (points.joined_forms (at_of place.now) place.now.point
        (points.joined_slots (points.source_at (plain_point point.now))) number)) }
{
    let Some(source) = source_at(point) else {
        return Ok(());
    };
    match joined_slots(source) {
        Some(parts) => push_joined_parts(alloc, forms, place, parts, number),
        None => Ok(()),
    }
}

// The slots that the source of a point joins, a separator and an array.
#[tactic(auto, unfolding(loose_sets::specs::Points::imploded_slots))]
fn imploded_at(point: &FlowPoint) -> Option<(Slot, Slot)>
    ensures { MatchOption result
        (points.imploded_slots (points.source_at (plain_point point.now)) ≡ None)
        (λ slots. points.imploded_slots (points.source_at (plain_point point.now))
        ≡ Some (slots.0.0, slots.1.0)) }
{
    match source_at(point) {
        Some(source) => imploded_slots(source),
        None => None,
    }
}

/// At a point that joins the members of an array: a member, an array among them as `Array`.
#[tactic(auto, using(crate::proofs::PlaceLemmas::ends), unfolding(loose_sets::specs::Points::piece_forms))]
pub fn push_piece(
    alloc: Global,
    forms: &mut Vec<NamedForm>,
    place: &Place<'_>,
    point: &FlowPoint,
) -> Result<(), NoMemory>
    ensures { OnOk result (Adds forms.old.items forms.new.items
        (points.piece_forms (at_of place.now) place.now.point
        (points.imploded_slots (points.source_at (plain_point point.now))))) }
{
    let Some((_, from)) = imploded_at(point) else {
        return Ok(());
    };
    push_form(forms, place.all_used(Half::Text, from))?;
    let word = Bytes::from_slice(alloc, b"Array")?;
    push_form(
        forms,
        NamedForm::Where(word, SetName::Members(Half::Array, place.version(from))),
    )
}

/// A separator and a member.
#[tactic(auto, using(crate::proofs::PlaceLemmas::ends), unfolding(loose_sets::specs::Points::further_forms))]
pub fn push_further(
    forms: &mut Vec<NamedForm>,
    place: &Place<'_>,
    point: &FlowPoint,
) -> Result<(), NoMemory>
    ensures { OnOk result (Adds forms.old.items forms.new.items
        (points.further_forms (at_of place.now) place.now.point
        (points.imploded_slots (points.source_at (plain_point point.now))))) }
{
    let Some((separator, _)) = imploded_at(point) else {
        return Ok(());
    };
    let text = SetName::Value(TEXT, place.version(separator));
    push_form(forms, NamedForm::Join(text, SetName::Piece(place.point)))
}

/// Any number of separators and members.
#[tactic(auto, using(crate::proofs::PlaceLemmas::ends), unfolding(loose_sets::specs::Points::any_further_forms))]
pub fn push_any_further(
    alloc: Global,
    forms: &mut Vec<NamedForm>,
    number: u64,
    point: &FlowPoint,
) -> Result<(), NoMemory>
    ensures { OnOk result (Adds forms.old.items forms.new.items
        (points.any_further_forms number
        (points.imploded_slots (points.source_at (plain_point point.now))))) }
{
    let Some(_) = imploded_at(point) else {
        return Ok(());
    };
    push_text(alloc, forms, b"")?;
    let further = SetName::FurtherPiece(number);
    push_form(
        forms,
        NamedForm::Join(further, SetName::FurtherPieces(number)),
    )
}

// The operation of the source of a point.
#[tactic(auto, unfolding(loose_sets::specs::Points::operation_of))]
fn operation_at(point: &FlowPoint) -> Option<Operation<'_>>
    ensures { MatchOption result
        (points.operation_of (points.source_at (plain_point point.now)) ≡ None)
        (λ work. points.operation_of (points.source_at (plain_point point.now))
        ≡ Some (work.op.now, work.from.0 ∷ listed (maybe_slot work.with))) }
{
    match source_at(point) {
        Some(source) => operation_of(source),
        None => None,
    }
}

/// The inputs of the operation at a point.
#[tactic(auto, using(crate::proofs::PlaceLemmas::ends), unfolding(loose_sets::specs::Points::input_forms))]
pub fn push_inputs(
    forms: &mut Vec<NamedForm>,
    place: &Place<'_>,
    point: &FlowPoint,
) -> Result<(), NoMemory>
    ensures { OnOk result (Adds forms.old.items forms.new.items
        (points.input_forms (at_of place.now) place.now.point
        (points.operation_of (points.source_at (plain_point point.now))))) }
{
    let Some(work) = operation_at(point) else {
        return Ok(());
    };
    push_form(forms, place.used(TEXT, work.from))?;
    match work.with {
        Some(with) => push_form(forms, place.used(TEXT, with)),
        None => Ok(()),
    }
}

/// The outputs of the operation at a point.
#[tactic(auto, using(crate::proofs::PlaceLemmas::ends), unfolding(loose_sets::specs::Points::output_forms))]
pub fn push_outputs(
    alloc: Global,
    forms: &mut Vec<NamedForm>,
    number: u64,
    point: &FlowPoint,
) -> Result<(), NoMemory>
    ensures { OnOk result (Adds forms.old.items forms.new.items
        (points.output_forms number
        (points.operation_of (points.source_at (plain_point point.now))))) }
{
    let Some(work) = operation_at(point) else {
        return Ok(());
    };
    let op = work.op.copy(alloc)?;
    push_form(forms, NamedForm::Apply(op, SetName::Input(number)))
}
