//! The versions of a program of points.

ghost use Rattle.std.specs.Prelude.{◌≡◌, ◌↔◌, length, map, vec_len, Contains, IfOk};
ghost use Rattle.std.specs.Option.{option_map};
ghost use Rattle.flow_code.specs.Points.{PlainFlow};
ghost use Rattle.flow_code.specs.View.{plain_flow_function, plain_flow};
ghost use Rattle.numbered_sets.specs.Places.{ArePlaces, AreInOrder};
ghost use Rattle.flow_graph.specs.Steps.{steps_seen};
ghost use Rattle.flow_graph.specs.Arrivals.{target};
ghost use Rattle.loose_sets.specs.Versions.{PlainVersion};
ghost use Rattle.ssa_form.specs.Views.{version_seen, versions_seen};
ghost use Rattle.ssa_form.specs.Marks.{IsGraph};
ghost use Rattle.ssa_form.specs.Versions.{joins_of, version_of, IsLinked, IsExact, links_of, AreOnce, AreJoins};

use crate::join_rows::JoinRows;
use crate::joins::{joined, rows_of};
use crate::marks::marks_of;
use crate::places::places_of;
use crate::remaking::{Placed, put_versions, rows_anew};
use crate::rows::Found;
use crate::version::Version;
use flow_code::{FlowFunction, FlowProgram};
use flow_graph::{Arrivals, Step, arrivals_of, heads_of, steps_of};
use indexmap::{IndexMap, IndexSet};
use numbered_sets::count;
use std::alloc::Global;
use text_base::{NoMemory, Point, Slot};

// How many rows a version is looked for behind an edge, where each is entered at the end of the next
// alone: behind so many there is a join, so that each look takes constant time.
const ROWS_BEHIND: u64 = 4;

/// The versions of the slots that the points of a program read.
#[derive(Debug, Drop)]
pub struct Versions {
    versions: IndexMap<(u64, u64), Version>,
    asks: IndexSet<(u64, u64)>,
    rows: JoinRows,
}

impl Versions {
    /// The version of a slot where a point reads it; None where the point does not read it. In
    /// constant time.
    pub fn version_at(&self, point: Point, slot: Slot) -> Option<Version>
        ensures { option_map version_seen result ≡ version_of self.now point.0 slot.0 }
    {
        self.versions.get(&(point.0, slot.0)).copied()
    }

    /// The versions that a join joins; none where the version is a definition. In constant time.
    pub fn links(&self, version: Version) -> &[Version]
        ensures exact { (v : PlainVersion)
            → Contains (versions_seen result.now) v ↔ IsLinked (joins_of self.now)
            (version_seen version) v }
        ensures list { versions_seen result.now ≡ links_of self.now (version_seen version) }
    {
        let Version::Join { point, slot } = version else {
            return &[];
        };
        joined(&self.asks, &self.rows, point.0, slot.0)
    }
}

// The versions, where the graph of the points is known.
fn versions_of(
    alloc: Global,
    functions: &[FlowFunction],
    steps: &[Step],
    arrivals: &Arrivals,
    heads: &[u64],
) -> Result<Versions, NoMemory>
    requires places { ArePlaces (map target arrivals.now.all.items) arrivals.now.at.items }
    requires order { AreInOrder (map target arrivals.now.all.items) arrivals.now.at.items }
    requires heads { length heads.now ≡ length steps.now }
    requires at { length heads.now ≡ vec_len arrivals.now.at }
    ensures exact { IfOk result
        (λ versions. (flow : PlainFlow) → map plain_flow_function functions.now ≡ flow.functions_of
        → IsGraph flow (steps_seen steps.now) arrivals.now.all.items heads.now
        → IsExact flow versions) }
    ensures joins { IfOk result
        (λ versions. (flow : PlainFlow) → map plain_flow_function functions.now ≡ flow.functions_of
        → IsGraph flow (steps_seen steps.now) arrivals.now.all.items heads.now
        → AreJoins flow versions) }
{
    let mut marks = marks_of(alloc, steps, heads)?;
    let found_out = Found {
        functions,
        arrivals,
        heads,
        last: &marks.last,
        rows_behind: ROWS_BEHIND,
    };
    let rows = rows_of(alloc, found_out, &mut marks.asks)?;
    Ok(Versions {
        versions: marks.versions,
        asks: marks.asks,
        rows,
    })
}

// The versions of a program of points, with a join for each slot that is read behind a point with
// several edges.
fn exact_versions(alloc: Global, flow: &FlowProgram) -> Result<Versions, NoMemory>
    ensures exact { IfOk result (IsExact (plain_flow flow.now)) }
    ensures joins { IfOk result (AreJoins (plain_flow flow.now)) }
{
    let steps = steps_of(alloc, flow)?;
    let arrivals = arrivals_of(alloc, &flow.functions, &steps)?;
    let heads = heads_of(alloc, &steps, &arrivals)?;
    versions_of(alloc, &flow.functions, &steps, &arrivals, &heads)
}

// The versions without joins that are no more than one version.
fn without_joins(alloc: Global, made: &Versions) -> Result<Versions, NoMemory>
    ensures exact { IfOk result (λ versions. (flow : PlainFlow) → IsExact flow made.now
        → AreJoins flow made.now → IsExact flow versions) }
    ensures joins { IfOk result (λ versions. (flow : PlainFlow) → IsExact flow made.now
        → AreJoins flow made.now → AreJoins flow versions) }
{
    let _count = count(&made.asks);
    let places = places_of(alloc, &made.asks, &made.rows)?;
    let placed = Placed {
        asks: &made.asks,
        rows: &made.rows,
        places: &places,
    };
    let mut asks = IndexSet::new(alloc);
    let versions = put_versions(alloc, &made.versions, placed, &mut asks)?;
    let rows = rows_anew(alloc, placed, &mut asks)?;
    Ok(Versions {
        versions,
        asks,
        rows,
    })
}

/// The versions of a program of points: one for each slot that a point reads, and the definitions
/// behind it are exactly those that reach the point. Where all that comes to a point is one version,
/// or has been there, that version stands for the slot and no join, but for loops deep in loops.
/// Its steps are linear in the points, in what they read, and for each join in the edges into its
/// point, also for joins that are taken away.
pub fn ssa(alloc: Global, flow: &FlowProgram) -> Result<Versions, NoMemory>
    ensures exact { IfOk result (IsExact (plain_flow flow.now)) }
    ensures once { IfOk result AreOnce }
    ensures joins { IfOk result (AreJoins (plain_flow flow.now)) }
{
    let made = exact_versions(alloc, flow)?;
    let versions = without_joins(alloc, &made)?;
    let _count = count(&versions.asks);
    Ok(versions)
}
