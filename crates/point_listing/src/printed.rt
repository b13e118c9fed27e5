//! The forms of what is printed from a point on.

ghost use Rattle.std.specs.Prelude.{◌≡◌, ◌∷◌, [], map, OnOk, Some, None, MatchOption, slice_get};
ghost use Rattle.flow_code.specs.View.{plain_point, plain_flow_function, maybe_slot};
ghost use Rattle.point_listing.specs.Forms.{form_seen};
ghost use Rattle.loose_sets.specs.Printed as printed;
ghost use Rattle.point_listing.specs.Places.{at_of, Adds};

use crate::{NamedForm, Place, push_form, push_text};
use flow_code::{FlowFunction, FlowPoint};
use loose_sets::{Aspect, Half, Leaving, SetName};
use std::alloc::Global;
use text_base::{NoMemory, Point, Slot};

// Goes on at a point.
fn push_onward(forms: &mut Vec<NamedForm>, next: Point, leaving: Leaving) -> Result<(), NoMemory>
    ensures { OnOk result
        (Adds forms.old.items forms.new.items (printed.onward leaving next.0 ∷ [])) }
{
    push_form(forms, NamedForm::Same(SetName::Out(next.0, leaving)))
}

// Where the function is left by a return: nothing more.
#[tactic(auto, using(crate::proofs::PlaceLemmas::ends), unfolding(loose_sets::specs::Printed::on_return))]
fn push_return(alloc: Global, forms: &mut Vec<NamedForm>, leaving: Leaving) -> Result<(), NoMemory>
    ensures { OnOk result (Adds forms.old.items forms.new.items (printed.on_return leaving)) }
{
    match leaving {
        Leaving::Return => push_text(alloc, forms, b""),
        Leaving::Exit => Ok(()),
    }
}

// A form, where the function is left by the end of the run.
#[tactic(auto, using(crate::proofs::PlaceLemmas::ends), unfolding(loose_sets::specs::Printed::on_exit))]
fn push_on_exit(
    forms: &mut Vec<NamedForm>,
    form: NamedForm,
    leaving: Leaving,
) -> Result<(), NoMemory>
    ensures { OnOk result
        (Adds forms.old.items forms.new.items (printed.on_exit (form_seen form) leaving)) }
{
    match leaving {
        Leaving::Return => Ok(()),
        Leaving::Exit => push_form(forms, form),
    }
}

// The end of the run: the text of a slot before it, where there is one.
#[tactic(auto, using(crate::proofs::PlaceLemmas::ends), unfolding(loose_sets::specs::Printed::on_exit))]
fn push_quit(
    alloc: Global,
    forms: &mut Vec<NamedForm>,
    place: &Place<'_>,
    slot: Option<Slot>,
    leaving: Leaving,
) -> Result<(), NoMemory>
    ensures { OnOk result (Adds forms.old.items forms.new.items
        (printed.on_exit (printed.quit_form (at_of place.now) place.now.point (maybe_slot slot))
        leaving)) }
{
    match leaving {
        Leaving::Return => Ok(()),
        Leaving::Exit => match slot {
            Some(slot) => push_form(forms, place.used(Aspect::Own(Half::Text), slot)),
            None => push_text(alloc, forms, b""),
        },
    }
}

/// The function of a number, if there is one. In constant time.
fn function_of(functions: &[FlowFunction], number: u64) -> Option<&FlowFunction>
    ensures { MatchOption result (slice_get (map plain_flow_function functions.now) number ≡ None)
        (λ function. slice_get (map plain_flow_function functions.now) number
        ≡ Some (plain_flow_function function.now)) }
{
    functions.get(number as usize)
}

// What a function prints and then what follows, or what it prints until the run ends in it.
#[tactic(auto, using(crate::proofs::PlaceLemmas::ends))]
fn push_call(
    forms: &mut Vec<NamedForm>,
    functions: &[FlowFunction],
    function: u64,
    next: Point,
    leaving: Leaving,
) -> Result<(), NoMemory>
    ensures { OnOk result (Adds forms.old.items forms.new.items
        (printed.call_forms next.0 leaving
        (slice_get (map plain_flow_function functions.now) function))) }
{
    let Some(called) = function_of(functions, function) else {
        return Ok(());
    };
    let inside = SetName::Out(called.entry.0, Leaving::Return);
    push_form(
        forms,
        NamedForm::Join(inside, SetName::Out(next.0, leaving)),
    )?;
    let end = SetName::Out(called.entry.0, Leaving::Exit);
    push_on_exit(forms, NamedForm::Same(end), leaving)
}

/// The forms of what is printed from a point on until its function is left so, behind the others.
#[tactic(auto, using(crate::proofs::PlaceLemmas::ends), unfolding(loose_sets::specs::Printed::out_forms, flow_code::specs::Lawful::nexts))]
pub fn push_out(
    alloc: Global,
    forms: &mut Vec<NamedForm>,
    functions: &[FlowFunction],
    place: &Place<'_>,
    point: &FlowPoint,
    leaving: Leaving,
) -> Result<(), NoMemory>
    ensures { OnOk result (Adds forms.old.items forms.new.items
        (printed.out_forms (map plain_flow_function functions.now) (at_of place.now) place.now.point
        (plain_point point.now) leaving)) }
{
    match point {
        FlowPoint::Call { function, next, .. } => {
            push_call(forms, functions, *function, *next, leaving)
        }
        FlowPoint::Print { bytes, next } => {
            let bytes = bytes.copy(alloc)?;
            push_form(
                forms,
                NamedForm::Before(bytes, SetName::Out(next.0, leaving)),
            )
        }
        FlowPoint::Echo { slot, next } => {
            let shown = SetName::Shown(place.version(*slot));
            push_form(forms, NamedForm::Join(shown, SetName::Out(next.0, leaving)))
        }
        FlowPoint::Return { .. } => push_return(alloc, forms, leaving),
        FlowPoint::Quit { slot } => push_quit(alloc, forms, place, *slot, leaving),
        FlowPoint::Branch { yes, no, .. } => {
            push_onward(forms, *yes, leaving)?;
            push_onward(forms, *no, leaving)
        }
        FlowPoint::EachNext { more, done, .. } => {
            push_onward(forms, *more, leaving)?;
            push_onward(forms, *done, leaving)
        }
        FlowPoint::Set { next, .. }
        | FlowPoint::Jump { next }
        | FlowPoint::EachBegin { next, .. }
        | FlowPoint::KeyOf { next, .. }
        | FlowPoint::ValueOf { next, .. } => push_onward(forms, *next, leaving),
    }
}
