//! The versions that points read, by one walk over the points in a row.

ghost use Rattle.std.specs.Prelude.{◌≡◌, ◌⊎◌, ◌∷◌, [], ◌&&◌, ℕ, suc, List, cond, length, Some, Contains, nat_eq, slice_get, OnOk, IfOk};
ghost use Rattle.flow_code.specs.Points.{PlainFlow};
ghost use Rattle.loose_sets.specs.Versions.{join_at, IsKept};
ghost use Rattle.numbered_sets.specs.Numbers.{Keeps};
ghost use Rattle.flow_graph.specs.declared.arrivals.Arrival.{Arrival};
ghost use Rattle.flow_graph.specs.Steps.{numbers, step_seen, steps_seen};
ghost use Rattle.ssa_form.specs.Views.{version_seen, held};
ghost use Rattle.ssa_form.specs.Marks.{found_in, asked_by, AreMarked, Reads, IsPoint, IsGraph};

use crate::version::{Definition, Version};
use flow_graph::Step;
use indexmap::{IndexMap, IndexSet};
use numbered_sets::number;
use std::alloc::Global;
use text_base::{NoMemory, Point, Slot};

/// What is known of slots.
#[derive(Debug, Drop)]
pub struct Marks {
    /// The last point of a row that sets a slot, by the first point of the row and the slot.
    pub last: IndexMap<(u64, u64), u64>,
    /// The version of each slot that a point reads, by the point and the slot.
    pub versions: IndexMap<(u64, u64), Version>,
    /// The joins that are asked for, each a point and a slot.
    pub asks: IndexSet<(u64, u64)>,
}

/// The version of a slot in the row that begins at a point: its last definition there, or the join.
pub fn found(last: &IndexMap<(u64, u64), u64>, head: u64, slot: u64) -> Version
    ensures { version_seen result ≡ found_in last.now head slot }
{
    match last.get(&(head, slot)) {
        Some(point) => Version::Of(Definition::At(Point(*point))),
        None => Version::Join {
            point: Point(head),
            slot: Slot(slot),
        },
    }
}

/// Asks for a version, where it is a join.
pub fn ask(asks: &mut IndexSet<(u64, u64)>, version: Version) -> Result<(), NoMemory>
    ensures kept { OnOk result (IsKept (asked_by asks.new.keys) (version_seen version)) }
    ensures keeps { Keeps asks.old.keys asks.new.keys }
    ensures adds { (k : ℕ × ℕ) → Contains asks.new.keys k
        → Contains asks.old.keys k ⊎ (version_seen version ≡ join_at k.0 k.1) }
{
    match version {
        Version::Of(_) => Ok(()),
        Version::Join { point, slot } => {
            number(asks, (point.0, slot.0))?;
            Ok(())
        }
    }
}

/// Holds a value for two numbers.
pub fn put<T: Drop>(
    table: &mut IndexMap<(u64, u64), T>,
    first: u64,
    second: u64,
    value: T,
) -> Result<(), NoMemory>
    ensures { OnOk result ((a b : ℕ) → held table.new a b
        ≡ cond (nat_eq first a && nat_eq second b) (Some value) (held table.old a b)) }
{
    table.insert((first, second), value)?;
    Ok(())
}

// A slot that a point reads.
fn read(marks: &mut Marks, head: u64, point: u64, slot: u64) -> Result<(), NoMemory>
    ensures { OnOk result (Reads marks.old marks.new head point (slot ∷ [])) }
{
    let version = found(&marks.last, head, slot);
    ask(&mut marks.asks, version)?;
    put(&mut marks.versions, point, slot, version)?;
    Ok(())
}

// The slots that a point reads.
fn read_all(marks: &mut Marks, head: u64, point: u64, slots: &[Slot]) -> Result<(), NoMemory>
    ensures { OnOk result (Reads marks.old marks.new head point (numbers slots.now)) }
{
    for slot in slots {
        read(marks, head, point, slot.0)?;
    }
    Ok(())
}

// One point.
fn mark(marks: &mut Marks, head: u64, point: u64, step: &Step) -> Result<(), NoMemory>
    ensures { OnOk result
        ((flow : PlainFlow) (heads : List ℕ) → IsPoint flow heads head point (step_seen step.now)
        → AreMarked flow heads marks.old point → AreMarked flow heads marks.new (suc point)) }
{
    read_all(marks, head, point, &step.reads)?;
    if let Some(slot) = step.sets {
        put(&mut marks.last, head, slot.0, point)?;
    }
    Ok(())
}

/// What is known of slots behind all points. Linear in the points and in what they read.
pub fn marks_of(alloc: Global, steps: &[Step], heads: &[u64]) -> Result<Marks, NoMemory>
    requires { length heads.now ≡ length steps.now }
    ensures { IfOk result (λ marks. (flow : PlainFlow) (all : List (ℕ × Arrival))
        → IsGraph flow (steps_seen steps.now) all heads.now
        → AreMarked flow heads.now marks (length steps.now)) }
{
    let mut marks = Marks {
        last: IndexMap::new(alloc),
        versions: IndexMap::new(alloc),
        asks: IndexSet::new(alloc),
    };
    for (point, step) in steps.iter().enumerate() {
        mark(&mut marks, heads[point], point as u64, step)?;
    }
    Ok(marks)
}
