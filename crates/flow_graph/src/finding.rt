//! What calls hand in for one parameter.

ghost use Rattle.std.specs.Prelude.{◌≡◌, ◌++◌, flat_map, map, slice_get, IfOk, OnOk};
ghost use Rattle.flow_code.specs.View.{plain_flow_function};
ghost use Rattle.flow_graph.specs.Rows.{points_seen};
ghost use Rattle.flow_graph.specs.Handed.{AreGroups, handings_from};
ghost use Rattle.flow_graph.specs.Found.{number_in, places_of, pair_at, pairs_under};

use crate::PointRow;
use crate::groups::{Groups, group};
use crate::handed::handings;
use flow_code::FlowFunction;
use indexmap::IndexSet;
use numbered_sets::{count, number_of};
use std::alloc::Global;
use text_base::NoMemory;

/// What calls hand in for the parameters of functions.
#[derive(Debug, Drop)]
pub struct Handed {
    /// Each with its function and parameter, its point and its slot.
    pub all: Vec<((u64, u64), (u64, u64))>,
    /// Where those of a function and a parameter stand.
    pub groups: Groups,
}

// The number of a key, if it is one.
fn key_number(keys: &IndexSet<(u64, u64)>, function: u64, param: u64) -> Option<usize>
    ensures { result ≡ number_in keys.now.keys function param }
{
    let _count = count(keys);
    number_of(keys, &(function, param))
}

// The places of the items of a key.
fn places_under(groups: &Groups, function: u64, param: u64) -> &[usize]
    ensures { result.now
        ≡ places_of groups.now.places.items (number_in groups.now.keys.keys function param) }
{
    let Some(number) = key_number(&groups.keys, function, param) else {
        return &[];
    };
    match groups.places.get(number) {
        Some(places) => places.as_slice(),
        None => &[],
    }
}

// The item at a place, if there is one.
fn item_at(all: &[((u64, u64), (u64, u64))], place: usize) -> Option<((u64, u64), (u64, u64))>
    ensures { result ≡ slice_get all.now place }
{
    all.get(place).copied()
}

// The pair of the item at a place.
#[tactic(auto, using(crate::proofs::PairLemmas::ends))]
fn put_pair(
    pairs: &mut Vec<(u64, u64)>,
    all: &[((u64, u64), (u64, u64))],
    place: usize,
) -> Result<(), NoMemory>
    ensures { OnOk result (pairs.new.items ≡ pairs.old.items ++ pair_at all.now place) }
{
    match item_at(all, place) {
        Some(item) => {
            pairs.push(item.1)?;
            Ok(())
        }
        None => Ok(()),
    }
}

// The pairs of the items at places.
#[tactic(auto, using(crate::proofs::PairLemmas::ends))]
fn pairs_at(
    alloc: Global,
    all: &[((u64, u64), (u64, u64))],
    places: &[usize],
) -> Result<Vec<(u64, u64)>, NoMemory>
    ensures { IfOk result (λ pairs. pairs.items ≡ flat_map (pair_at all.now) places.now) }
{
    let mut pairs = Vec::new(alloc);
    for place in places {
        put_pair(&mut pairs, all, *place)?;
    }
    Ok(pairs)
}

impl Handed {
    /// What the points of a program hand in. Linear in the points and the arguments.
    pub fn new(
        alloc: Global,
        row: &PointRow<'_>,
        functions: &[FlowFunction],
    ) -> Result<Handed, NoMemory>
        ensures all { IfOk result (λ handed. handed.all.items
            ≡ handings_from (map plain_flow_function functions.now) 0 (points_seen row.now)) }
        ensures groups { IfOk result
            (λ handed. AreGroups handed.all.items handed.groups.keys.keys
            handed.groups.places.items) }
    {
        let all = handings(alloc, row, functions)?;
        let groups = group(alloc, &all)?;
        Ok(Handed { all, groups })
    }

    /// The pairs of the point of a call and the slot that it hands in for a parameter of a
    /// function. Linear in these.
    pub fn pairs(
        &self,
        alloc: Global,
        function: u64,
        param: u64,
    ) -> Result<Vec<(u64, u64)>, NoMemory>
        ensures { IfOk result (λ pairs. pairs.items
            ≡ pairs_under self.now.all.items self.now.groups.keys.keys self.now.groups.places.items
            function param) }
    {
        pairs_at(
            alloc,
            &self.all,
            places_under(&self.groups, function, param),
        )
    }
}
