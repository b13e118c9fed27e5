//! What calls hand in for the parameters of functions.

ghost use Rattle.std.specs.Prelude.{◌≡◌, ◌++◌, map, Some, None, MatchOption, IfOk, OnOk, slice_get};
ghost use Rattle.flow_code.specs.View.{plain_point, plain_flow_function, slot_number};
ghost use Rattle.flow_graph.specs.Rows.{points_seen};
ghost use Rattle.flow_graph.specs.Handed as spec;

use crate::PointRow;
use flow_code::{FlowFunction, FlowPoint};
use std::alloc::Global;
use text_base::{NoMemory, Slot};

// Each parameter of a call with its argument.
#[tactic(auto, using(crate::proofs::PairLemmas::ends, crate::proofs::PairLemmas::no_args), unfolding(crate::specs::Handed::of_call))]
fn put_args(
    all: &mut Vec<((u64, u64), (u64, u64))>,
    point: u64,
    function: u64,
    params: &[Slot],
    args: &[Slot],
) -> Result<(), NoMemory>
    ensures { OnOk result (all.new.items ≡ all.old.items
        ++ spec.of_call point function (map slot_number params.now) (map slot_number args.now)) }
{
    let mut others = args;
    for param in params {
        let Some((arg, rest)) = others.split_first() else {
            return Ok(());
        };
        all.push(((function, param.0), (point, arg.0)))?;
        others = rest;
    }
    Ok(())
}

// The parameters of the function of a number.
fn params_of(functions: &[FlowFunction], number: u64) -> &[Slot]
    ensures { map slot_number result.now
        ≡ spec.params_of (slice_get (map plain_flow_function functions.now) number) }
{
    match functions.get(number as usize) {
        Some(function) => function.params.as_slice(),
        None => &[],
    }
}

// One point.
#[tactic(auto, using(crate::proofs::PairLemmas::ends), unfolding(crate::specs::Handed::at_point))]
fn put_point(
    all: &mut Vec<((u64, u64), (u64, u64))>,
    functions: &[FlowFunction],
    number: u64,
    point: &FlowPoint,
) -> Result<(), NoMemory>
    ensures { OnOk result (all.new.items ≡ all.old.items
        ++ spec.at_point (map plain_flow_function functions.now) number (plain_point point.now)) }
{
    match point {
        FlowPoint::Call { function, args, .. } => {
            put_args(
                all,
                number,
                *function,
                params_of(functions, *function),
                args,
            )
        }
        FlowPoint::Set { .. }
        | FlowPoint::Print { .. }
        | FlowPoint::Echo { .. }
        | FlowPoint::Branch { .. }
        | FlowPoint::Jump { .. }
        | FlowPoint::EachBegin { .. }
        | FlowPoint::EachNext { .. }
        | FlowPoint::KeyOf { .. }
        | FlowPoint::ValueOf { .. }
        | FlowPoint::Return { .. }
        | FlowPoint::Quit { .. } => Ok(()),
    }
}

/// What calls hand in, in the order of points: each with its function and parameter, its point and
/// its slot. Linear in the points and the arguments.
#[tactic(auto, using(crate::proofs::PairLemmas::ends), unfolding(crate::specs::Handed::handings_from))]
pub fn handings(
    alloc: Global,
    row: &PointRow<'_>,
    functions: &[FlowFunction],
) -> Result<Vec<((u64, u64), (u64, u64))>, NoMemory>
    ensures { IfOk result (λ all. all.items
        ≡ spec.handings_from (map plain_flow_function functions.now) 0 (points_seen row.now)) }
{
    let mut all = Vec::new(alloc);
    for (number, point) in row.points.iter().enumerate() {
        put_point(&mut all, functions, number as u64, point)?;
    }
    Ok(all)
}
