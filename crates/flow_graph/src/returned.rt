//! What functions return.

ghost use Rattle.std.specs.Prelude.{◌≡◌, ◌<◌, ◌+◌, ◌^◌, ◌++◌, map, IfOk, OnOk, slice_get};
ghost use Rattle.flow_code.specs.View.{plain_point, plain_flow_function, maybe_slot};
ghost use Rattle.flow_graph.specs.Rows.{points_seen};
ghost use Rattle.flow_graph.specs.Returned as spec;
ghost use Rattle.flow_graph.specs.Tables.{pairs_seen};

use crate::PointRow;
use flow_code::{FlowFunction, FlowPoint};
use std::alloc::Global;
use text_base::{NoMemory, Slot};

// The slot that a point returns.
#[tactic(auto, unfolding(crate::specs::Returned::returned_slot))]
fn returned_slot(point: &FlowPoint) -> Option<Slot>
    ensures { maybe_slot result ≡ spec.returned_slot (plain_point point.now) }
{
    match point {
        FlowPoint::Return { slot } => Some(*slot),
        FlowPoint::Set { .. }
        | FlowPoint::Call { .. }
        | FlowPoint::Print { .. }
        | FlowPoint::Echo { .. }
        | FlowPoint::Branch { .. }
        | FlowPoint::Jump { .. }
        | FlowPoint::EachBegin { .. }
        | FlowPoint::EachNext { .. }
        | FlowPoint::KeyOf { .. }
        | FlowPoint::ValueOf { .. }
        | FlowPoint::Quit { .. } => None,
    }
}

// The slot that the point of a number returns.
fn returned_at(row: &PointRow<'_>, number: u64) -> Option<Slot>
    ensures { maybe_slot result ≡ spec.return_slots (slice_get (points_seen row.now) number) }
{
    match row.find(number) {
        Some(point) => returned_slot(point),
        None => None,
    }
}

// One point.
#[tactic(auto, using(crate::proofs::PairLemmas::ends))]
fn put_return(pairs: &mut Vec<(u64, u64)>, row: &PointRow<'_>, number: u64) -> Result<(), NoMemory>
    ensures { OnOk result (pairs.new.items ≡ pairs.old.items
        ++ spec.paired number (spec.return_slots (slice_get (points_seen row.now) number))) }
{
    match returned_at(row, number) {
        Some(slot) => {
            pairs.push((number, slot.0))?;
            Ok(())
        }
        None => Ok(()),
    }
}

// So many points, from a number on.
#[tactic(auto, using(crate::proofs::PairLemmas::ends, crate::proofs::PairLemmas::one_more), unfolding(crate::specs::Returned::returned_from))]
fn put_returns(
    pairs: &mut Vec<(u64, u64)>,
    row: &PointRow<'_>,
    first: u64,
    count: u64,
) -> Result<(), NoMemory>
    requires { first + count < 2 ^ 64 }
    ensures { OnOk result (pairs.new.items ≡ pairs.old.items
        ++ spec.returned_from (points_seen row.now) first count) }
{
    for place in 0..count {
        put_return(pairs, row, first + place)?;
    }
    Ok(())
}

// The same where the sum may be more than any number: there are no points so far.
#[tactic(auto, using(crate::proofs::PairLemmas::ends, crate::proofs::PairLemmas::none_past_row))]
fn put_own(
    pairs: &mut Vec<(u64, u64)>,
    row: &PointRow<'_>,
    first: u64,
    count: u64,
) -> Result<(), NoMemory>
    requires { count < 2 ^ 63 }
    ensures { OnOk result (pairs.new.items ≡ pairs.old.items
        ++ spec.returned_from (points_seen row.now) first count) }
{
    let points = row.points.as_slice();
    if first < points.len() as u64 {
        put_returns(pairs, row, first, count)
    } else {
        Ok(())
    }
}

// The points of one function.
#[tactic(auto, using(crate::proofs::PairLemmas::ends))]
fn returned_by(
    alloc: Global,
    row: &PointRow<'_>,
    function: &FlowFunction,
) -> Result<Vec<(u64, u64)>, NoMemory>
    ensures { IfOk result (λ pairs. pairs.items
        ≡ spec.returned_pairs (points_seen row.now) (plain_flow_function function.now)) }
{
    let mut pairs = Vec::new(alloc);
    let count = function.points.len() as u64;
    put_own(&mut pairs, row, function.first_point.0, count)?;
    Ok(pairs)
}

/// For each function its pairs of a point that returns and the slot that it returns. Linear in the
/// points.
#[tactic(auto, using(crate::proofs::PairLemmas::ends))]
pub fn returned_pairs(
    alloc: Global,
    row: &PointRow<'_>,
    functions: &[FlowFunction],
) -> Result<Vec<Vec<(u64, u64)>>, NoMemory>
    ensures { IfOk result (λ all. pairs_seen all.items
        ≡ map (spec.returned_pairs (points_seen row.now)) (map plain_flow_function functions.now)) }
{
    let mut all = Vec::new(alloc);
    for function in functions {
        all.push(returned_by(alloc, row, function)?)?;
    }
    Ok(all)
}
