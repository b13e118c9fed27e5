//! The forms of what a source gives.

ghost use Rattle.std.specs.Prelude.{◌≡◌, ◌∷◌, [], codes, OnOk};
ghost use Rattle.plain_values.specs.Text.{text_of};
ghost use Rattle.php_values.specs.View.{plain_of};
ghost use Rattle.flow_code.specs.View.{plain_source};
ghost use Rattle.least_sets.specs.Forms.{text_form};
ghost use Rattle.loose_sets.specs.Sources as spec;
ghost use Rattle.point_listing.specs.Places.{told_of, at_of, Adds};

use crate::NamedForm;
use crate::arrays::{is_integer_at, push_array};
use crate::members::{push_array_own, push_member};
use crate::places::Place;
use crate::pushing::{push_form, push_text, push_where};
use crate::writes::{Write, push_put};
use flow_code::Source;
use loose_sets::{Aspect, Half, SetName, SetVersion};
use php_values::Value;
use std::alloc::Global;
use text_base::{NoMemory, Slot};
use value_operations::text_of;

/// Is it the text of the value itself?
#[tactic(auto, unfolding(loose_sets::specs::Sources::is_own_text))]
pub fn is_own_text(aspect: Aspect) -> bool
    ensures { result ≡ spec.is_own_text aspect }
{
    match aspect {
        Aspect::Own(Half::Text) => true,
        Aspect::Own(Half::Array) => false,
        Aspect::Member(_, _) => false,
        Aspect::Others(_) => false,
        Aspect::Keys => false,
    }
}

/// One text, where the aspect is that of the text of the value itself.
#[tactic(auto, using(crate::proofs::PlaceLemmas::ends), unfolding(loose_sets::specs::Uses::where_so))]
pub fn push_text_alone(
    alloc: Global,
    forms: &mut Vec<NamedForm>,
    text: &[u8],
    aspect: Aspect,
) -> Result<(), NoMemory>
    ensures { OnOk result (Adds forms.old.items forms.new.items
        (spec.texts_alone (text_form text.now ∷ []) aspect)) }
{
    if is_own_text(aspect) {
        push_text(alloc, forms, text)
    } else {
        Ok(())
    }
}

// A literal, which is no array.
fn push_literal(
    alloc: Global,
    forms: &mut Vec<NamedForm>,
    value: &Value,
    aspect: Aspect,
) -> Result<(), NoMemory>
    ensures { OnOk result (Adds forms.old.items forms.new.items
        (spec.texts_alone (text_form (text_of (plain_of value.now)) ∷ []) aspect)) }
{
    let text = text_of(alloc, value)?;
    push_text_alone(alloc, forms, text.as_slice(), aspect)
}

// A member of an array of the request.
#[tactic(auto, unfolding(loose_sets::specs::Sources::request_own))]
fn push_request_own(forms: &mut Vec<NamedForm>, half: Half) -> Result<(), NoMemory>
    ensures { OnOk result (Adds forms.old.items forms.new.items (spec.request_own half)) }
{
    match half {
        Half::Text => push_form(forms, NamedForm::Request),
        Half::Array => push_form(forms, NamedForm::Yes),
    }
}

// An array of the request.
#[tactic(auto, unfolding(loose_sets::specs::Sources::super_forms))]
fn push_super(forms: &mut Vec<NamedForm>, aspect: Aspect) -> Result<(), NoMemory>
    ensures { OnOk result (Adds forms.old.items forms.new.items (spec.super_forms aspect)) }
{
    match aspect {
        Aspect::Own(half) => push_array_own(forms, half),
        Aspect::Member(_, half) => push_request_own(forms, half),
        Aspect::Others(half) => push_request_own(forms, half),
        Aspect::Keys => push_form(forms, NamedForm::Request),
    }
}

// Any number of copies of a text.
#[tactic(auto, using(crate::proofs::PlaceLemmas::ends), unfolding(loose_sets::specs::Uses::where_so))]
fn push_copies(
    alloc: Global,
    forms: &mut Vec<NamedForm>,
    place: &Place<'_>,
    from: Slot,
    aspect: Aspect,
) -> Result<(), NoMemory>
    ensures { OnOk result (Adds forms.old.items forms.new.items
        (spec.texts_alone (spec.copies (at_of place.now) place.now.point from.0) aspect)) }
{
    if !is_own_text(aspect) {
        return Ok(());
    }
    push_text(alloc, forms, b"")?;
    let text = Aspect::Own(Half::Text);
    let copied = SetName::Value(text, place.version(from));
    let all = SetName::Value(text, SetVersion::Point(place.point));
    push_form(forms, NamedForm::Join(copied, all))
}

// The members of an array, joined.
#[tactic(auto, using(crate::proofs::PlaceLemmas::ends), unfolding(loose_sets::specs::Uses::where_so))]
fn push_pieces(
    alloc: Global,
    forms: &mut Vec<NamedForm>,
    point: u64,
    aspect: Aspect,
) -> Result<(), NoMemory>
    ensures { OnOk result (Adds forms.old.items forms.new.items
        (spec.texts_alone (spec.pieces point) aspect)) }
{
    if !is_own_text(aspect) {
        return Ok(());
    }
    push_text(alloc, forms, b"")?;
    push_form(
        forms,
        NamedForm::Join(SetName::Piece(point), SetName::FurtherPieces(point)),
    )
}

// An output of the operation at a point.
#[tactic(auto, using(crate::proofs::PlaceLemmas::ends), unfolding(loose_sets::specs::Sources::output_own))]
fn push_output_own(forms: &mut Vec<NamedForm>, point: u64, half: Half) -> Result<(), NoMemory>
    ensures { OnOk result (Adds forms.old.items forms.new.items (spec.output_own point half)) }
{
    match half {
        Half::Text => push_form(forms, NamedForm::Same(SetName::Output(point))),
        Half::Array => Ok(()),
    }
}

// The member of a number of an array of outputs: one under an integer.
#[tactic(auto, using(crate::proofs::PlaceLemmas::ends), unfolding(loose_sets::specs::Sources::explode_forms, loose_sets::specs::Uses::where_so))]
fn push_explode_member(
    forms: &mut Vec<NamedForm>,
    place: &Place<'_>,
    number: u64,
    half: Half,
) -> Result<(), NoMemory>
    ensures { OnOk result (Adds forms.old.items forms.new.items
        (spec.explode_forms (told_of place.now) place.now.point (Aspect.Member number half))) }
{
    if is_integer_at(place, number) {
        push_output_own(forms, place.point, half)
    } else {
        Ok(())
    }
}

// An array of the outputs of an operation.
#[tactic(auto, unfolding(loose_sets::specs::Sources::explode_forms))]
fn push_explode(
    forms: &mut Vec<NamedForm>,
    place: &Place<'_>,
    aspect: Aspect,
) -> Result<(), NoMemory>
    ensures { OnOk result (Adds forms.old.items forms.new.items
        (spec.explode_forms (told_of place.now) place.now.point aspect)) }
{
    match aspect {
        Aspect::Own(half) => push_array_own(forms, half),
        Aspect::Member(number, half) => push_explode_member(forms, place, number, half),
        Aspect::Others(half) => push_output_own(forms, place.point, half),
        Aspect::Keys => push_form(forms, NamedForm::Integer),
    }
}

// A truth value.
#[tactic(auto, using(crate::proofs::PlaceLemmas::ends), unfolding(loose_sets::specs::Uses::where_so))]
fn push_truth(alloc: Global, forms: &mut Vec<NamedForm>, aspect: Aspect) -> Result<(), NoMemory>
    ensures { OnOk result (Adds forms.old.items forms.new.items
        (spec.texts_alone (text_form (codes "1") ∷ text_form [] ∷ []) aspect)) }
{
    if !is_own_text(aspect) {
        return Ok(());
    }
    push_text(alloc, forms, b"1")?;
    push_text(alloc, forms, b"")
}

/// The forms of what a source gives to its slot, behind the others. Its time is linear in the
/// source for each key that stands in it, and in the keys that are told apart.
#[tactic(auto, unfolding(loose_sets::specs::Sources::source_forms))]
pub fn push_source(
    alloc: Global,
    forms: &mut Vec<NamedForm>,
    place: &Place<'_>,
    source: &Source,
    aspect: Aspect,
) -> Result<(), NoMemory>
    ensures { OnOk result (Adds forms.old.items forms.new.items
        (spec.source_forms (told_of place.now) (at_of place.now) place.now.point
        (plain_source source.now) aspect)) }
{
    let own = is_own_text(aspect);
    match source {
        Source::Lit(value) => push_literal(alloc, forms, value, aspect),
        Source::Copy(from) => push_form(forms, place.used(aspect, *from)),
        Source::Super(_) => push_super(forms, aspect),
        Source::MemberOf(from, key) => push_member(alloc, forms, place, *from, key, aspect),
        Source::ArrayOf(items) => push_array(alloc, forms, place, items, aspect),
        Source::PutIn(from, path, value) => {
            let write = Write {
                from: *from,
                value: *value,
            };
            push_put(alloc, forms, place, write, path, aspect)
        }
        Source::Concat(_) => {
            push_where(forms, own, NamedForm::Same(SetName::Joined(place.point, 0)))
        }
        Source::Repeat { from, .. } => push_copies(alloc, forms, place, *from, aspect),
        Source::Implode { .. } => push_pieces(alloc, forms, place.point, aspect),
        Source::Explode { .. } => push_explode(forms, place, aspect),
        Source::Apply { .. } => {
            push_where(forms, own, NamedForm::Same(SetName::Output(place.point)))
        }
        Source::Number { .. } => push_where(forms, own, NamedForm::Integer),
        Source::Truth { .. } => push_truth(alloc, forms, aspect),
    }
}
