//! Points in a row that is entered at its first point alone.

ghost use Rattle.std.specs.Prelude.{◌≡◌, ◌⊎◌, ◌↔◌, ◌<◌, ◌≤◌, ◌∷◌, [], ℕ, true, length, map, vec_len, Some, slice_get, IfOk};
ghost use Rattle.flow_graph.specs.declared.arrivals.Arrival.{Arrival};
ghost use Rattle.numbered_sets.specs.Places.{ArePlaces};
ghost use Rattle.flow_graph.specs.declared.arrivals.Arrival.TheVariants.{Edge};
ghost use Rattle.flow_graph.specs.Steps.{exits_seen, steps_seen};
ghost use Rattle.flow_graph.specs.Arrivals.{target};
ghost use Rattle.flow_graph.specs.Heads.{ComesFrom, ComesFromAt, GoesOn, AreHeads, RowsGoOn};

use crate::arrivals::{Arrival, Arrivals};
use crate::step::{Exits, Step};
use std::alloc::Global;
use text_base::NoMemory;

// Is it an edge from this point?
fn is_edge_from(arrival: Arrival, before: u64) -> bool
    ensures { result ≡ true ↔ arrival ≡ Edge before }
{
    match arrival {
        Arrival::Edge(from) => from == before,
        Arrival::Entry(_) => false,
    }
}

// Is the arrival at a place an edge from this point, if there is one?
fn comes_at(all: &[(u64, Arrival)], place: usize, before: u64) -> bool
    ensures { result ≡ true ↔ ((p : ℕ) (a : Arrival) → slice_get all.now place ≡ Some (p, a)
        → a ≡ Edge before) }
{
    match all.get(place) {
        Some(arrival) => is_edge_from(arrival.1, before),
        None => true,
    }
}

// Are the arrivals at these places all edges from one point?
fn come_from(all: &[(u64, Arrival)], places: &[usize], before: u64) -> bool
    ensures { result ≡ true ↔ ComesFromAt all.now places.now before }
{
    for place in places {
        if !comes_at(all, *place, before) {
            return false;
        }
    }
    true
}

// Do edges from one point alone lead to another?
fn comes_from(arrivals: &Arrivals, point: usize, before: u64) -> bool
    requires { ArePlaces (map target arrivals.now.all.items) arrivals.now.at.items }
    ensures yes { result ≡ true → ComesFrom arrivals.now.all.items point before }
    ensures no { point < vec_len arrivals.now.at
        → ComesFrom arrivals.now.all.items point before → result ≡ true }
{
    match arrivals.at.get(point) {
        Some(places) => come_from(&arrivals.all, places, before),
        None => false,
    }
}

// Does a point go on at this one alone?
fn leads_only_to(step: &Step, point: usize) -> bool
    ensures { result ≡ true ↔ exits_seen step.now.exits ≡ point ∷ [] }
{
    match step.exits {
        Exits::On(next) => next.0 == point as u64,
        Exits::Ends | Exits::Either(_, _) => false,
    }
}

// Does the row of the point before go on at this one?
fn goes_on(steps: &[Step], arrivals: &Arrivals, point: usize) -> bool
    requires { ArePlaces (map target arrivals.now.all.items) arrivals.now.at.items }
    ensures yes { result ≡ true → GoesOn (steps_seen steps.now) arrivals.now.all.items point }
    ensures no { point < vec_len arrivals.now.at
        → GoesOn (steps_seen steps.now) arrivals.now.all.items point → result ≡ true }
{
    let Some(before) = point.checked_sub(1) else {
        return false;
    };
    let Some(step) = steps.get(before) else {
        return false;
    };
    leads_only_to(step, point) && comes_from(arrivals, point, before as u64)
}

// The first point of the row of a point, where `before` is that of the point before it.
fn head_at(steps: &[Step], arrivals: &Arrivals, point: usize, before: u64) -> u64
    requires { ArePlaces (map target arrivals.now.all.items) arrivals.now.at.items }
    ensures head { (result ≡ point)
        ⊎ ((result ≡ before) × GoesOn (steps_seen steps.now) arrivals.now.all.items point) }
    ensures on { point < vec_len arrivals.now.at
        → GoesOn (steps_seen steps.now) arrivals.now.all.items point → result ≡ before }
{
    if goes_on(steps, arrivals, point) {
        before
    } else {
        point as u64
    }
}

/// The first point of the row in which each point stands: a point stands in the row of the one
/// before it where that one goes on there alone, and nothing else leads there. Linear in points.
pub fn heads_of(alloc: Global, steps: &[Step], arrivals: &Arrivals) -> Result<Vec<u64>, NoMemory>
    requires { ArePlaces (map target arrivals.now.all.items) arrivals.now.at.items }
    ensures len { IfOk result (λ heads. vec_len heads ≡ length steps.now) }
    ensures heads { IfOk result
        (λ heads. AreHeads (steps_seen steps.now) arrivals.now.all.items heads.items) }
    ensures on { IfOk result (λ heads. length steps.now ≤ vec_len arrivals.now.at
        → RowsGoOn (steps_seen steps.now) arrivals.now.all.items heads.items) }
{
    let mut heads = Vec::new(alloc);
    let mut head = 0;
    for point in 0..steps.len() {
        head = head_at(steps, arrivals, point, head);
        heads.push(head)?;
    }
    Ok(heads)
}
