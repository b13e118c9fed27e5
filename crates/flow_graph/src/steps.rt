//! All points in a row.

ghost use Rattle.std.specs.Prelude.{◌≡◌, ◌++◌, map, IfOk, OnOk};
ghost use Rattle.flow_code.specs.Lawful as lawful;
ghost use Rattle.flow_code.specs.Points.{points_in};
ghost use Rattle.flow_code.specs.View.{plain_point, plain_flow_function, plain_flow, maybe_slot};
ghost use Rattle.flow_graph.specs.Steps.{exits_seen, step_seen, steps_seen, step_of_point, steps_of_points};

use crate::reads::reads_of;
use crate::step::{Exits, Step};
use flow_code::{FlowFunction, FlowPoint, FlowProgram};
use std::alloc::Global;
use text_base::{NoMemory, Slot};

// The slot that a point sets.
#[tactic(auto, unfolding(flow_code::specs::Lawful::sets))]
fn set_by(point: &FlowPoint) -> Option<Slot>
    ensures { maybe_slot result ≡ lawful.sets (plain_point point.now) }
{
    match point {
        FlowPoint::Set { slot, .. }
        | FlowPoint::Call { slot, .. }
        | FlowPoint::EachBegin { slot, .. }
        | FlowPoint::KeyOf { slot, .. }
        | FlowPoint::ValueOf { slot, .. } => Some(*slot),
        FlowPoint::Print { .. }
        | FlowPoint::Echo { .. }
        | FlowPoint::Branch { .. }
        | FlowPoint::Jump { .. }
        | FlowPoint::EachNext { .. }
        | FlowPoint::Return { .. }
        | FlowPoint::Quit { .. } => None,
    }
}

// Where a point goes on.
#[tactic(auto, unfolding(flow_code::specs::Lawful::nexts))]
fn exits_of(point: &FlowPoint) -> Exits
    ensures { exits_seen result ≡ lawful.nexts (plain_point point.now) }
{
    match point {
        FlowPoint::Set { next, .. }
        | FlowPoint::Call { next, .. }
        | FlowPoint::Print { next, .. }
        | FlowPoint::Echo { next, .. }
        | FlowPoint::Jump { next }
        | FlowPoint::EachBegin { next, .. }
        | FlowPoint::KeyOf { next, .. }
        | FlowPoint::ValueOf { next, .. } => Exits::On(*next),
        FlowPoint::Branch { yes, no, .. } => Exits::Either(*yes, *no),
        FlowPoint::EachNext { more, done, .. } => Exits::Either(*more, *done),
        FlowPoint::Return { .. } | FlowPoint::Quit { .. } => Exits::Ends,
    }
}

// What one point does.
fn step_of(alloc: Global, point: &FlowPoint) -> Result<Step, NoMemory>
    ensures { IfOk result (λ step. step_seen step ≡ step_of_point (plain_point point.now)) }
{
    let reads = reads_of(alloc, point)?;
    Ok(Step {
        sets: set_by(point),
        exits: exits_of(point),
        reads,
    })
}

// The points of one function.
#[tactic(auto, using(crate::proofs::StepLemmas::ends))]
fn of_points(alloc: Global, points: &[FlowPoint], steps: &mut Vec<Step>) -> Result<(), NoMemory>
    ensures { OnOk result (steps_seen steps.new.items ≡ steps_seen steps.old.items
        ++ steps_of_points (map plain_point points.now)) }
{
    for point in points {
        steps.push(step_of(alloc, point)?)?;
    }
    Ok(())
}

// The points of functions, one function after the other.
#[tactic(auto, using(crate::proofs::StepLemmas::ends), unfolding(flow_code::specs::Points::points_in))]
fn of_functions(
    alloc: Global,
    functions: &[FlowFunction],
    steps: &mut Vec<Step>,
) -> Result<(), NoMemory>
    ensures { OnOk result (steps_seen steps.new.items ≡ steps_seen steps.old.items
        ++ steps_of_points (points_in (map plain_flow_function functions.now))) }
{
    for function in functions {
        of_points(alloc, &function.points, steps)?;
    }
    Ok(())
}

/// What each point of a program does, in the order of the points. Linear in the program.
pub fn steps_of(alloc: Global, flow: &FlowProgram) -> Result<Vec<Step>, NoMemory>
    ensures { IfOk result (λ steps. steps_seen steps.items
        ≡ steps_of_points (points_in (plain_flow flow.now).functions_of)) }
{
    let mut steps = Vec::new(alloc);
    of_functions(alloc, &flow.functions, &mut steps)?;
    Ok(steps)
}
