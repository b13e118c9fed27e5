//! What a join joins.

ghost use Rattle.std.specs.Prelude.{◌≡◌, ◌<◌, ◌++◌, [], map, flat_map, vec_len, slice_get, OnOk};
ghost use Rattle.flow_code.specs.View.{plain_flow_function};
ghost use Rattle.ssa_form.specs.Views.{version_seen, versions_seen};
ghost use Rattle.numbered_sets.specs.Places.{ArePlaces, AreInOrder};
ghost use Rattle.flow_graph.specs.Arrivals.{target};
ghost use Rattle.ssa_form.specs.Rows.{link_of, link_at, owns, IsRow};
ghost use Rattle.ssa_form.specs.Behind.{lone, lone_place, left_by, left_point, at_place, row_before, found_behind, behind_rows};

use crate::marks::found;
use crate::version::{Definition, Version};
use flow_code::FlowFunction;
use flow_graph::{Arrival, Arrivals};
use indexmap::IndexMap;
use text_base::{NoMemory, Slot};

/// What the walk over the points found out.
#[derive(Clone, Copy)]
pub struct Found<'a> {
    pub functions: &'a [FlowFunction],
    pub arrivals: &'a Arrivals,
    pub heads: &'a [u64],
    pub last: &'a IndexMap<(u64, u64), u64>,
    /// How many rows a version is looked for at most behind the one from which an edge comes.
    pub rows_behind: u64,
}

// The one place of a list that has one.
fn only_place(places: &[usize]) -> Option<usize>
    ensures { result ≡ lone places.now }
{
    match places {
        [place] => Some(*place),
        _ => None,
    }
}

// The one place of what leads to a point, where nothing else does.
fn only_arrival(at: &[Vec<usize>], point: u64) -> Option<usize>
    ensures { result ≡ lone_place (slice_get at.now point) }
{
    match at.get(point as usize) {
        Some(places) => only_place(places),
        None => None,
    }
}

// The point from which an arrival comes by an edge.
fn edge_from(arrival: Arrival) -> Option<u64>
    ensures { result ≡ left_by arrival }
{
    match arrival {
        Arrival::Edge(from) => Some(from),
        Arrival::Entry(_) => None,
    }
}

// That of the arrival at a place.
fn edge_at(all: &[(u64, Arrival)], place: Option<usize>) -> Option<u64>
    ensures { result ≡ left_point (at_place all.now place) }
{
    match place {
        Some(place) => match all.get(place) {
            Some(arrival) => edge_from(arrival.1),
            None => None,
        },
        None => None,
    }
}

// The first point of the row of a point.
fn head_of(heads: &[u64], point: Option<u64>) -> Option<u64>
    ensures { result ≡ at_place heads.now point }
{
    match point {
        Some(point) => heads.get(point as usize).copied(),
        None => None,
    }
}

// The row at whose end alone the row of a point begins, if one edge alone leads to the point.
#[tactic(auto, unfolding(crate::specs::Behind::row_before))]
fn row_before(found_out: Found<'_>, point: u64) -> Option<u64>
    ensures { result ≡ row_before found_out.entry.arrivals.now.at.items
        found_out.entry.arrivals.now.all.items found_out.entry.heads.now point }
{
    let place = only_arrival(&found_out.arrivals.at, point);
    let from = edge_at(&found_out.arrivals.all, place);
    head_of(found_out.heads, from)
}

// The version of a slot behind a row: its last definition there, or that behind the row at whose
// end alone this one begins, and so on for so many rows, or else the join.
#[tactic(auto, unfolding(crate::specs::Behind::found_behind))]
fn found_behind(found_out: Found<'_>, rows: u64, head: u64, slot: u64) -> Version
    ensures { version_seen result ≡ found_behind (row_before found_out.entry.arrivals.now.at.items
        found_out.entry.arrivals.now.all.items found_out.entry.heads.now)
        found_out.entry.last.now rows head slot }
{
    let version = found(found_out.last, head, slot);
    let Version::Join { .. } = version else {
        return version;
    };
    let (Some(fewer), Some(before)) = (rows.checked_sub(1), row_before(found_out, head)) else {
        return version;
    };
    found_behind(found_out, fewer, before, slot)
}

// Is the slot one of the function's own?
#[tactic(auto, unfolding(crate::specs::Rows::owns))]
fn is_own(function: &FlowFunction, slot: u64) -> bool
    ensures { result ≡ owns (plain_flow_function function.now) slot }
{
    match slot.checked_sub(function.first_slot.0) {
        Some(place) => place < function.slots,
        None => false,
    }
}

// The version of a slot that comes by one arrival.
#[tactic(auto, using(crate::proofs::RowLemmas::ends), unfolding(crate::specs::Rows::link_of))]
fn put_link(
    found_out: Found<'_>,
    slot: u64,
    arrival: Arrival,
    row: &mut Vec<Version>,
) -> Result<(), NoMemory>
    ensures { OnOk result (versions_seen row.new.items ≡ versions_seen row.old.items
        ++ link_of (map plain_flow_function found_out.entry.functions.now) found_out.entry.heads.now
        (behind_rows found_out.entry) slot arrival) }
{
    match arrival {
        Arrival::Edge(from) => {
            if let Some(head) = found_out.heads.get(from as usize) {
                row.push(found_behind(found_out, found_out.rows_behind, *head, slot))?;
            }
        }
        Arrival::Entry(number) => {
            if let Some(function) = found_out.functions.get(number as usize) {
                if is_own(function, slot) {
                    row.push(Version::Of(Definition::Entry {
                        function: number,
                        slot: Slot(slot),
                    }))?;
                }
            }
        }
    }
    Ok(())
}

// The one that comes by the arrival at a place of their list.
#[tactic(auto, unfolding(crate::specs::Rows::link_at))]
fn put_link_at(
    found_out: Found<'_>,
    slot: u64,
    place: usize,
    row: &mut Vec<Version>,
) -> Result<(), NoMemory>
    ensures { OnOk result (versions_seen row.new.items ≡ versions_seen row.old.items
        ++ link_at (map plain_flow_function found_out.entry.functions.now) found_out.entry.heads.now
        (behind_rows found_out.entry) slot found_out.entry.arrivals.now.all.items place) }
{
    match found_out.arrivals.all.get(place) {
        Some(arrival) => put_link(found_out, slot, arrival.1, row),
        None => Ok(()),
    }
}

// Those that come by the arrivals at places.
#[tactic(auto, using(crate::proofs::RowLemmas::ends))]
fn put_links(
    found_out: Found<'_>,
    slot: u64,
    places: &[usize],
    row: &mut Vec<Version>,
) -> Result<(), NoMemory>
    ensures { OnOk result (versions_seen row.new.items ≡ versions_seen row.old.items
        ++ flat_map (link_at (map plain_flow_function found_out.entry.functions.now)
        found_out.entry.heads.now (behind_rows found_out.entry)
        slot found_out.entry.arrivals.now.all.items) places.now) }
{
    for place in places {
        put_link_at(found_out, slot, *place, row)?;
    }
    Ok(())
}

/// Puts the versions that the join of a slot at a point joins.
pub fn put_row(
    found_out: Found<'_>,
    point: u64,
    slot: u64,
    row: &mut Vec<Version>,
) -> Result<(), NoMemory>
    requires places { ArePlaces (map target found_out.arrivals.now.all.items)
        found_out.arrivals.now.at.items }
    requires order { AreInOrder (map target found_out.arrivals.now.all.items)
        found_out.arrivals.now.at.items }
    requires empty { row.old.items ≡ [] }
    ensures { OnOk result (point < vec_len found_out.entry.arrivals.now.at
        → IsRow (map plain_flow_function found_out.entry.functions.now) found_out.entry.heads.now
        (behind_rows found_out.entry)
        found_out.entry.arrivals.now.all.items point slot (versions_seen row.new.items)) }
{
    match found_out.arrivals.at.get(point as usize) {
        Some(places) => put_links(found_out, slot, places, row),
        None => Ok(()),
    }
}
