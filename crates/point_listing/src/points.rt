//! Sets that belong to points.

ghost use Rattle.std.specs.Prelude.{map, slice_get, OnOk};
ghost use Rattle.flow_code.specs.View.{plain_point, plain_flow_function};
ghost use Rattle.flow_graph.specs.Rows.{points_seen};
ghost use Rattle.loose_sets.specs.Table.{forms_from, forms_there};
ghost use Rattle.point_listing.specs.Places.{told_of, at_of, Adds};
ghost use Rattle.point_listing.specs.Names.{IsAt};

use crate::{
    NamedForm, Place, push_any_further, push_further, push_inputs, push_joined, push_out,
    push_outputs, push_piece, push_value,
};
use flow_code::{FlowFunction, FlowPoint};
use flow_graph::PointRow;
use loose_sets::{SetName, SetVersion};
use std::alloc::Global;
use text_base::NoMemory;

// From the point, where the name belongs to it.
#[tactic(auto, using(crate::proofs::PlaceLemmas::ends), unfolding(loose_sets::specs::Table::forms_from, loose_sets::specs::Table::point_of))]
fn push_from(
    alloc: Global,
    forms: &mut Vec<NamedForm>,
    functions: &[FlowFunction],
    place: &Place<'_>,
    point: &FlowPoint,
    name: SetName,
) -> Result<(), NoMemory>
    requires { IsAt name place.now.point }
    ensures { OnOk result (Adds forms.old.items forms.new.items
        (forms_from (told_of place.now) (map plain_flow_function functions.now) (at_of place.now)
        name (plain_point point.now))) }
{
    match name {
        SetName::Value(aspect, SetVersion::Point(_)) => {
            push_value(alloc, forms, place, point, aspect)
        }
        SetName::Input(_) => push_inputs(forms, place, point),
        SetName::Output(number) => push_outputs(alloc, forms, number, point),
        SetName::Joined(_, number) => push_joined(alloc, forms, place, point, number),
        SetName::Piece(_) => push_piece(alloc, forms, place, point),
        SetName::FurtherPiece(_) => push_further(forms, place, point),
        SetName::FurtherPieces(number) => push_any_further(alloc, forms, number, point),
        SetName::Out(_, leaving) => push_out(alloc, forms, functions, place, point, leaving),
        SetName::Value(_, SetVersion::Entry(..) | SetVersion::Join(..))
        | SetName::Members(..)
        | SetName::Shown(_)
        | SetName::Result(..) => Ok(()),
    }
}

/// The forms of a set that belongs to the point of the place, behind the others; none where there
/// is no such point.
#[tactic(auto, using(crate::proofs::PlaceLemmas::ends))]
pub fn push_named(
    alloc: Global,
    forms: &mut Vec<NamedForm>,
    functions: &[FlowFunction],
    row: &PointRow<'_>,
    place: &Place<'_>,
    name: SetName,
) -> Result<(), NoMemory>
    requires { IsAt name place.now.point }
    ensures { OnOk result (Adds forms.old.items forms.new.items
        (forms_there (forms_from (told_of place.now) (map plain_flow_function functions.now)
        (at_of place.now) name)
        (slice_get (points_seen row.now) place.now.point))) }
{
    match row.find(place.point) {
        Some(point) => push_from(alloc, forms, functions, place, point, name),
        None => Ok(()),
    }
}
