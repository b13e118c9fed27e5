//! What leads to each point: the points that go on there, and the functions that are entered there.

ghost use Rattle.std.specs.Prelude.{◌≡◌, ◌<◌, ◌++◌, All, length, map, vec_len, IfOk, OnOk};
ghost use Rattle.flow_code.specs.View.{plain_flow_function};
ghost use Rattle.numbered_sets.specs.Places.{ArePlaces, AreInOrder};
ghost use Rattle.flow_graph.specs.Steps.{exits_seen, steps_seen};
ghost use Rattle.flow_graph.specs.Arrivals.{target, within, from_exits, from_steps, from_functions};

use crate::step::{Exits, Step};
use flow_code::FlowFunction;
use numbered_sets::places_by;
use std::alloc::Global;
use text_base::NoMemory;

/// What leads to a point: an edge from another point, or the entry of a function, by their numbers.
#[derive(Clone, Copy, Debug, PartialEq, Eq)]
pub enum Arrival {
    Edge(u64),
    Entry(u64),
}

/// All that leads to the points of a program.
#[derive(Debug, Drop)]
pub struct Arrivals {
    /// Each with the point to which it leads.
    pub all: Vec<(u64, Arrival)>,
    /// For each point, the places in `all` of what leads to it.
    pub at: Vec<Vec<usize>>,
}

// One more, where its point is among the first `count`.
#[tactic(auto, using(crate::proofs::ArrivalLemmas::ends), unfolding(crate::specs::Arrivals::within))]
fn put(
    all: &mut Vec<(u64, Arrival)>,
    count: u64,
    point: u64,
    arrival: Arrival,
) -> Result<(), NoMemory>
    ensures { OnOk result (all.new.items ≡ all.old.items
        ++ within count (point, arrival)) }
{
    if point < count {
        all.push((point, arrival))?;
    }
    Ok(())
}

// The exits of one point.
#[tactic(auto, using(crate::proofs::ArrivalLemmas::ends))]
fn put_exits(
    all: &mut Vec<(u64, Arrival)>,
    count: u64,
    from: u64,
    exits: Exits,
) -> Result<(), NoMemory>
    ensures { OnOk result (all.new.items ≡ all.old.items
        ++ from_exits count from (exits_seen exits)) }
{
    match exits {
        Exits::Ends => Ok(()),
        Exits::On(next) => put(all, count, next.0, Arrival::Edge(from)),
        Exits::Either(yes, no) => {
            put(all, count, yes.0, Arrival::Edge(from))?;
            put(all, count, no.0, Arrival::Edge(from))
        }
    }
}

// The exits of all points.
#[tactic(auto, using(crate::proofs::ArrivalLemmas::ends), unfolding(crate::specs::Arrivals::from_steps))]
fn put_steps(all: &mut Vec<(u64, Arrival)>, count: u64, steps: &[Step]) -> Result<(), NoMemory>
    ensures { OnOk result (all.new.items ≡ all.old.items
        ++ from_steps count 0 (steps_seen steps.now)) }
{
    for (from, step) in steps.iter().enumerate() {
        put_exits(all, count, from as u64, step.exits)?;
    }
    Ok(())
}

// The entries of functions.
#[tactic(auto, using(crate::proofs::ArrivalLemmas::ends), unfolding(crate::specs::Arrivals::from_functions))]
fn put_functions(
    all: &mut Vec<(u64, Arrival)>,
    count: u64,
    functions: &[FlowFunction],
) -> Result<(), NoMemory>
    ensures { OnOk result (all.new.items ≡ all.old.items
        ++ from_functions count 0 (map plain_flow_function functions.now)) }
{
    for (number, function) in functions.iter().enumerate() {
        put(all, count, function.entry.0, Arrival::Entry(number as u64))?;
    }
    Ok(())
}

// The points to which arrivals lead.
#[tactic(auto, using(crate::proofs::ArrivalLemmas::ends))]
fn targets(alloc: Global, all: &[(u64, Arrival)]) -> Result<Vec<u64>, NoMemory>
    ensures { IfOk result (λ points. points.items ≡ map target all.now) }
{
    let mut points = Vec::new(alloc);
    for arrival in all {
        points.push(arrival.0)?;
    }
    Ok(points)
}

/// What leads to each of the points. Linear in points and functions.
pub fn arrivals_of(
    alloc: Global,
    functions: &[FlowFunction],
    steps: &[Step],
) -> Result<Arrivals, NoMemory>
    ensures all { IfOk result (λ arrivals. arrivals.all.items
        ≡ from_steps (length steps.now) 0 (steps_seen steps.now)
        ++ from_functions (length steps.now) 0 (map plain_flow_function functions.now)) }
    ensures at { IfOk result
        (λ arrivals. ArePlaces (map target arrivals.all.items) arrivals.at.items) }
    ensures order { IfOk result
        (λ arrivals. AreInOrder (map target arrivals.all.items) arrivals.at.items) }
    ensures len { IfOk result (λ arrivals. vec_len arrivals.at ≡ length steps.now) }
{
    let count = steps.len() as u64;
    let mut all = Vec::new(alloc);
    put_steps(&mut all, count, steps)?;
    put_functions(&mut all, count, functions)?;
    let points = targets(alloc, &all)?;
    let at = places_by(alloc, count, &points)?;
    Ok(Arrivals { all, at })
}
