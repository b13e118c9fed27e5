//! The forms of what a point gives to its slot.

ghost use Rattle.std.specs.Prelude.{◌≡◌, ◌∷◌, [], OnOk};
ghost use Rattle.flow_code.specs.View.{plain_point};
ghost use Rattle.point_listing.specs.Forms.{form_seen};
ghost use Rattle.loose_sets.specs.Points as points;
ghost use Rattle.point_listing.specs.Places.{told_of, at_of, Adds};

use crate::{NamedForm, Place, is_own_text, push_form, push_source, push_where};
use flow_code::FlowPoint;
use loose_sets::{Aspect, SetName};
use std::alloc::Global;
use text_base::{NoMemory, Slot};

// A member where a walk stands.
#[tactic(auto, unfolding(loose_sets::specs::Points::walk_forms))]
fn walked(place: &Place<'_>, from: Slot, aspect: Aspect) -> NamedForm
    ensures { form_seen result ∷ []
        ≡ points.walk_forms (at_of place.now) place.now.point from.0 aspect }
{
    match aspect {
        Aspect::Own(half) => place.all_used(half, from),
        Aspect::Member(_, half) => place.used(Aspect::Others(half), from),
        Aspect::Others(half) => place.used(Aspect::Others(half), from),
        Aspect::Keys => place.used(Aspect::Keys, from),
    }
}

/// The forms of what a point gives to its slot, behind the others; none where it sets none.
#[tactic(auto, using(crate::proofs::PlaceLemmas::ends), unfolding(loose_sets::specs::Points::value_forms))]
pub fn push_value(
    alloc: Global,
    forms: &mut Vec<NamedForm>,
    place: &Place<'_>,
    point: &FlowPoint,
    aspect: Aspect,
) -> Result<(), NoMemory>
    ensures { OnOk result (Adds forms.old.items forms.new.items
        (points.value_forms (told_of place.now) (at_of place.now) place.now.point
        (plain_point point.now) aspect)) }
{
    match point {
        FlowPoint::Set { source, .. } => push_source(alloc, forms, place, source, aspect),
        FlowPoint::Call { function, .. } => {
            push_form(forms, NamedForm::Same(SetName::Result(aspect, *function)))
        }
        FlowPoint::EachBegin { from, .. } => push_form(forms, place.used(aspect, *from)),
        FlowPoint::KeyOf { from, .. } => {
            let keys = place.used(Aspect::Keys, *from);
            push_where(forms, is_own_text(aspect), keys)
        }
        FlowPoint::ValueOf { from, .. } => push_form(forms, walked(place, *from, aspect)),
        FlowPoint::Print { .. }
        | FlowPoint::Echo { .. }
        | FlowPoint::Branch { .. }
        | FlowPoint::Jump { .. }
        | FlowPoint::EachNext { .. }
        | FlowPoint::Return { .. }
        | FlowPoint::Quit { .. } => Ok(()),
    }
}
