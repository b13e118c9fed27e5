//! The heads and ends of loops.

ghost use Rattle.std.specs.Prelude.{◌≡◌, ℕ, ◌+◌, [], ◌∷◌, IfOk, OnOk};
ghost use Rattle.flow_code.specs.Code.{Code};
ghost use Rattle.flow_code.specs.Points.{begin_point, key_point, value_point};
ghost use Rattle.flow_code.specs.Statements.{pair_points, test_of};
ghost use Rattle.flow_code.specs.View.{plain_point, maybe_slot};
ghost use Rattle.flow_lowering.specs.View.{progress};
ghost use Rattle.flow_lowering.specs.Emits.{Progress, Puts, Emits, place};
ghost use Rattle.flow_lowering.specs.Drafts.{closed};
ghost use Rattle.flow_lowering.specs.Blocks.{Opens, EndsLoop, walk_head};

use crate::exits::{Exit, fill_exits, replace_point};
use crate::{PointBuilder, Reserved};
use flow_code::FlowPoint;
use text_base::{NoMemory, Point, Slot};

/// The point at the head of a loop that leads behind it, which is replaced once it is known where
/// that is.
#[derive(Clone, Copy, Debug)]
pub enum Head {
    /// A test, by the slot of its value.
    Test(Slot, Reserved),
    /// The walk of a `foreach`, by its slot.
    Walk(Slot, Reserved),
    /// None, where a loop has no condition or tests it at its end.
    Always,
}

/// The test of a loop, behind the code of its value.
pub fn begin_test(value: Slot, points: &mut PointBuilder) -> Result<Head, NoMemory>
    ensures { IfOk result
        (λ head. (before : Progress) (a : Code ℕ) → Emits before (progress points.old) a value.0
        → Opens before (progress points.new) head (test_of a)) }
{
    let point = points.reserve()?;
    Ok(Head::Test(value, point))
}

// A copy of the value that is walked, in a fresh slot.
fn copy_walked(from: Slot, points: &mut PointBuilder) -> Result<Slot, NoMemory>
    ensures puts { OnOk result (Puts (progress points.old) (progress points.new)
        (begin_point (progress points.old).slot from.0 (place (progress points.old) + 1) ∷ []) 1) }
    ensures slot { IfOk result (λ slot. slot.0 ≡ (progress points.old).slot) }
{
    let next = points.ahead(1);
    let slot = points.free_slot();
    points
        .points
        .push(FlowPoint::EachBegin { slot, from, next })?;
    points.slot += 1;
    Ok(slot)
}

// The variable of the value of a turn is set.
fn set_value(walk: Slot, value: Slot, points: &mut PointBuilder) -> Result<(), NoMemory>
    ensures { OnOk result (Puts (progress points.old) (progress points.new)
        (value_point value.0 walk.0 (place (progress points.old) + 1) ∷ []) 0) }
{
    let next = points.ahead(1);
    points.push(FlowPoint::ValueOf {
        slot: value,
        from: walk,
        next,
    })
}

// The variables of the key and of the value of a turn are set.
fn set_both(walk: Slot, key: Slot, value: Slot, points: &mut PointBuilder) -> Result<(), NoMemory>
    ensures { OnOk result (Puts (progress points.old) (progress points.new)
        (key_point key.0 walk.0 (place (progress points.old) + 1)
        ∷ value_point value.0 walk.0 (place (progress points.old) + 2) ∷ []) 0) }
{
    let next = points.ahead(1);
    points.push(FlowPoint::KeyOf {
        slot: key,
        from: walk,
        next,
    })?;
    set_value(walk, value, points)?;
    Ok(())
}

// The variables of a turn are set.
fn set_pair(
    walk: Slot,
    key: Option<Slot>,
    value: Slot,
    points: &mut PointBuilder,
) -> Result<(), NoMemory>
    ensures { OnOk result (Puts (progress points.old) (progress points.new)
        (pair_points (maybe_slot key) value.0 walk.0 (place (progress points.old))) 0) }
{
    match key {
        Some(key) => set_both(walk, key, value, points),
        None => set_value(walk, value, points),
    }
}

/// The head of a `foreach`, behind the code of the value that is walked, and the number of the
/// point that begins each turn.
pub fn begin_walk(
    from: Slot,
    key: Option<Slot>,
    value: Slot,
    points: &mut PointBuilder,
) -> Result<(Head, Point), NoMemory>
    ensures opens { IfOk result
        (λ begun. (before : Progress) (a : Code ℕ) → Emits before (progress points.old) a from.0
        → Opens before (progress points.new) begun.0 (walk_head a (maybe_slot key) value.0)) }
    ensures again { IfOk result (λ begun. begun.1.0 ≡ place (progress points.old) + 1) }
{
    let walk = copy_walked(from, points)?;
    let again = points.place();
    let next = points.reserve()?;
    set_pair(walk, key, value, points)?;
    Ok((Head::Walk(walk, next), again))
}

// The head of a loop leads to its end.
fn close_head(head: Head, stop: Point, points: &mut PointBuilder)
    ensures { progress points.new ≡ closed stop.0 head (progress points.old) }
{
    match head {
        Head::Test(slot, point) => {
            let (yes, no) = (point.behind, stop);
            replace_point(point.index, FlowPoint::Branch { slot, yes, no }, points)
        }
        Head::Walk(slot, point) => {
            let (more, done) = (point.behind, stop);
            replace_point(
                point.index,
                FlowPoint::EachNext { slot, more, done },
                points,
            )
        }
        Head::Always => {}
    }
}

/// The end of a loop: its last point is put, which leads back, each `break` and the head lead
/// behind it, and each `continue` to `again`.
pub fn end_loop(
    head: Head,
    last: FlowPoint,
    again: Point,
    exits: Vec<Exit>,
    points: &mut PointBuilder,
) -> Result<(), NoMemory>
    ensures { OnOk result
        (EndsLoop (progress points.old) (progress points.new) head (plain_point last) again.0
        exits.items) }
{
    let stop = points.ahead(1);
    points.push(last)?;
    fill_exits(exits, stop, again, points);
    close_head(head, stop, points);
    Ok(())
}
