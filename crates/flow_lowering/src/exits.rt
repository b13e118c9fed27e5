//! Points that lead out of a loop, or to its next turn.

ghost use Rattle.std.specs.Prelude.{◌≡◌, [], ◌∷◌, OnOk};
ghost use Rattle.flow_code.specs.View.{plain_point};
ghost use Rattle.flow_lowering.specs.View.{progress};
ghost use Rattle.flow_lowering.specs.Drafts.{replaced, filled};
ghost use Rattle.flow_lowering.specs.Blocks.{Drafts, PutsJump, stopping, continuing};

use crate::PointBuilder;
use flow_code::FlowPoint;
use text_base::{NoMemory, Point};

/// A point that is replaced once it is known where it leads, by its place among the points.
#[derive(Clone, Copy, Debug)]
pub enum Exit {
    /// `break`
    Stop(usize),
    /// `continue`
    Again(usize),
}

/// Replaces a point, if there is one at the place.
#[tactic(auto, using(crate::proofs::ReplaceLemmas::replaced_there, crate::proofs::ReplaceLemmas::replaced_nowhere))]
pub(crate) fn replace_point(index: usize, point: FlowPoint, points: &mut PointBuilder)
    ensures { progress points.new ≡ replaced (progress points.old) index (plain_point point) }
{
    if index < points.points.len() {
        points.points[index] = point;
    }
}

// Replaces an exit by a jump.
fn fill_exit(exit: Exit, stop: Point, again: Point, points: &mut PointBuilder)
    ensures { progress points.new
        ≡ filled (record { stop = stop.0; again = again.0 }) (exit ∷ []) (progress points.old) }
{
    match exit {
        Exit::Stop(index) => replace_point(index, FlowPoint::Jump { next: stop }, points),
        Exit::Again(index) => replace_point(index, FlowPoint::Jump { next: again }, points),
    }
}

/// Replaces each exit by a jump: out of the loop, or to its next turn.
#[tactic(auto, using(crate::proofs::FillLemmas::filled_split))]
pub fn fill_exits(mut exits: Vec<Exit>, stop: Point, again: Point, points: &mut PointBuilder)
    ensures { progress points.new
        ≡ filled (record { stop = stop.0; again = again.0 }) exits.items (progress points.old) }
{
    while let Some(exit) = exits.pop() {
        fill_exit(exit, stop, again, points);
    }
}

/// `break`, which is replaced at the end of the loop.
pub fn put_break(points: &mut PointBuilder, exits: &mut Vec<Exit>) -> Result<(), NoMemory>
    ensures { OnOk result
        (Drafts (progress points.old) (progress points.new) exits.old.items exits.new.items
        stopping) }
{
    let point = points.reserve()?;
    exits.push(Exit::Stop(point.index))?;
    Ok(())
}

/// `continue`, which is replaced at the end of the loop.
pub fn put_continue(points: &mut PointBuilder, exits: &mut Vec<Exit>) -> Result<(), NoMemory>
    ensures { OnOk result
        (Drafts (progress points.old) (progress points.new) exits.old.items exits.new.items
        continuing) }
{
    let point = points.reserve()?;
    exits.push(Exit::Again(point.index))?;
    Ok(())
}

/// The point that jumps over what stands behind an arm of an `if`, where a run goes on behind the
/// arm's body. It is replaced at the end of the `if`.
pub fn put_jump(
    needed: bool,
    points: &mut PointBuilder,
    jumps: &mut Vec<Exit>,
) -> Result<(), NoMemory>
    ensures { OnOk result
        (PutsJump needed (progress points.old) (progress points.new) jumps.old.items
        jumps.new.items) }
{
    if needed {
        let point = points.reserve()?;
        jumps.push(Exit::Stop(point.index))?;
        Ok(())
    } else {
        Ok(())
    }
}
