//! A list of points that grows.

ghost use Rattle.std.specs.Prelude.{◌≡◌, ◌+◌, ◌≤◌, ◌<◌, [], ◌∷◌, length, map, vec_len, IfOk, OnOk};
ghost use Rattle.flow_code.specs.Points.{call_point};
ghost use Rattle.flow_code.specs.View.{plain_point, plain_source, slot_number};
ghost use Rattle.flow_lowering.specs.Emits.{Puts, Sets, Reserves, Replaces, place, START_LIMIT};

use flow_code::{FlowPoint, Source};
use std::alloc::Global;
use text_base::{NoMemory, Point, Slot};

/// A point that is put and is to be replaced.
#[derive(Clone, Copy, Debug)]
pub struct Reserved {
    /// Its place among the points of the builder.
    pub index: usize,
    /// The number of the point behind it.
    pub behind: Point,
}

/// The points of a function that are made so far. Contracts see what `progress` of specs/View.antt
/// says.
#[derive(Debug, Drop)]
pub struct PointBuilder {
    /// The points.
    pub points: Vec<FlowPoint>,
    /// The number of the first one.
    pub first: u64,
    /// The next free slot.
    pub slot: u64,
    pub ghost first_within: { first ≤ START_LIMIT },
    pub ghost slots_within: { slot ≤ START_LIMIT + vec_len points },
}

impl PointBuilder {
    ghost use Rattle.flow_lowering.specs.View.{progress};

    /// No points, where the first one and the next free slot have these numbers.
    pub fn new(alloc: Global, first: u64, slot: u64) -> PointBuilder
        requires first { first ≤ START_LIMIT }
        requires slot { slot ≤ START_LIMIT }
        ensures { progress result ≡ record { first = first; points = []; slot = slot } }
    {
        PointBuilder {
            points: Vec::new(alloc),
            first,
            slot,
        }
    }

    /// The number of the point that is put next.
    pub fn place(&self) -> Point
        ensures { result.0 ≡ place (progress self.now) }
    {
        Point(self.first + self.points.len() as u64)
    }

    /// The number of the point that is put so many points behind the next one.
    pub fn ahead(&self, count: u64) -> Point
        requires { count ≤ 8 }
        ensures { result.0 ≡ place (progress self.now) + count }
    {
        Point(self.first + self.points.len() as u64 + count)
    }

    /// How many points there are.
    pub fn count(&self) -> usize
        ensures { result ≡ length (progress self.now).points }
    {
        self.points.len()
    }

    /// The next free slot.
    pub fn free_slot(&self) -> Slot
        ensures { result.0 ≡ (progress self.now).slot }
    {
        Slot(self.slot)
    }

    /// Puts a point behind the others.
    pub fn push(&mut self, point: FlowPoint) -> Result<(), NoMemory>
        ensures { OnOk result
            (Puts (progress self.old) (progress self.new) (plain_point point ∷ []) 0) }
    {
        self.points.push(point)?;
        Ok(())
    }

    /// Sets the next free slot, which is then taken, and goes on at a point.
    pub fn set_fresh(&mut self, source: Source, next: Point) -> Result<Slot, NoMemory>
        ensures { IfOk result
            (λ slot. Sets (progress self.old) (progress self.new) (plain_source source) next.0
            slot.0) }
    {
        let slot = Slot(self.slot);
        self.points.push(FlowPoint::Set { slot, source, next })?;
        self.slot += 1;
        Ok(slot)
    }

    /// Sets the next free slot, which is then taken, and goes on at the point behind.
    pub fn compute(&mut self, source: Source) -> Result<Slot, NoMemory>
        ensures { IfOk result
            (λ slot. Sets (progress self.old) (progress self.new) (plain_source source)
            (place (progress self.old) + 1) slot.0) }
    {
        let next = self.ahead(1);
        self.set_fresh(source, next)
    }

    /// Calls a function and sets the next free slot, which is then taken, to its result; goes on at
    /// the point behind.
    pub fn call(&mut self, function: u64, args: Vec<Slot>) -> Result<Slot, NoMemory>
        ensures puts { OnOk result (Puts (progress self.old) (progress self.new)
            (call_point (progress self.old).slot function (map slot_number args.items)
            (place (progress self.old) + 1) ∷ []) 1) }
        ensures slot { IfOk result (λ slot. slot.0 ≡ (progress self.old).slot) }
    {
        let next = self.ahead(1);
        let slot = Slot(self.slot);
        self.points.push(FlowPoint::Call {
            slot,
            function,
            args,
            next,
        })?;
        self.slot += 1;
        Ok(slot)
    }

    /// Puts a point behind the others, to be replaced once it is known where it leads.
    pub fn reserve(&mut self) -> Result<Reserved, NoMemory>
        ensures { IfOk result
            (λ point. Reserves (progress self.old) (progress self.new) point.index point.behind.0) }
    {
        let index = self.points.len();
        let behind = self.ahead(1);
        self.push(FlowPoint::Jump { next: Point(0) })?;
        Ok(Reserved { index, behind })
    }

    /// Replaces a point.
    pub fn replace(&mut self, index: usize, point: FlowPoint)
        requires { index < length (progress self.old).points }
        ensures { Replaces (progress self.old) (progress self.new) index (plain_point point) }
    {
        self.points[index] = point;
    }

    /// All points.
    pub fn into_points(self) -> Vec<FlowPoint>
        ensures { map plain_point result.items ≡ (progress self).points }
    {
        self.points
    }
}
