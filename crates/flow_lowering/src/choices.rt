//! The ends of the forms that evaluate a part of theirs in some cases alone.
//!
//! A point whose targets are not known yet is reserved, and filled in where they are.

ghost use Rattle.std.specs.Prelude.{◌≡◌, ◌+◌, ◌<◌, [], ◌∷◌, length, if◌then◌else◌, IfOk, OnOk};
ghost use Rattle.flow_code.specs.declared.source.Work.TheVariants as work;
ghost use Rattle.flow_code.specs.Points.{copy_source, truth_source, set_point, branch_point, jump_point};
ghost use Rattle.flow_code.specs.View.{plain_point};
ghost use Rattle.flow_lowering.specs.View.{progress};
ghost use Rattle.flow_lowering.specs.Emits.{Puts, Sets, Closes, place};

use crate::values::one_slot;
use crate::{PointBuilder, Reserved};
use flow_code::{FlowPoint, Source, Work};
use std::alloc::Global;
use text_base::{NoMemory, Point, Slot};

/// The end of `&&` (`both`) and `||`: on the way through the right side the result is its truth,
/// and else that of the left side.
#[tactic(auto, using(crate::proofs::BranchLemmas::closes_of, crate::proofs::EmitLemmas::puts_then))]
pub fn finish_truth(
    alloc: Global,
    branch: Reserved,
    left: Slot,
    right: Slot,
    both: bool,
    points: &mut PointBuilder,
) -> Result<Slot, NoMemory>
    requires { branch.index < length (progress points.old).points }
    ensures slot { IfOk result (λ slot. slot.0 ≡ (progress points.old).slot) }
    ensures closes { OnOk result (Closes (progress points.old) (progress points.new) branch.index
        (if both then branch_point left.0 branch.behind.0 (place (progress points.old) + 1)
        else branch_point left.0 (place (progress points.old) + 1) branch.behind.0)
        (set_point (progress points.old).slot (truth_source work.AsTruth (right.0 ∷ []))
        (place (progress points.old) + 2)
        ∷ set_point (progress points.old).slot (truth_source work.AsTruth (left.0 ∷ []))
        (place (progress points.old) + 2) ∷ []) 1) }
{
    let other = points.ahead(1);
    let end = points.ahead(2);
    let args = one_slot(alloc, right)?;
    let work = Work::AsTruth;
    let slot = points.set_fresh(Source::Truth { work, args }, end)?;
    let args = one_slot(alloc, left)?;
    let source = Source::Truth { work, args };
    let next = end;
    points.push(FlowPoint::Set { slot, source, next })?;
    points.replace(branch.index, branching(left, branch.behind, other, both));
    Ok(slot)
}

/// A branch that leads to the first where the value is what is asked for.
pub fn branching(slot: Slot, first: Point, other: Point, asked: bool) -> FlowPoint
    ensures { plain_point result
        ≡ (if asked then branch_point slot.0 first.0 other.0 else branch_point slot.0 other.0
        first.0) }
{
    if asked {
        let (yes, no) = (first, other);
        FlowPoint::Branch { slot, yes, no }
    } else {
        let (yes, no) = (other, first);
        FlowPoint::Branch { slot, yes, no }
    }
}

/// The begin of `??`: a test whether the value is not null, a branch, and a point for the copy
/// where it is not.
#[tactic(auto, using(crate::proofs::EmitLemmas::puts_then))]
pub fn begin_there(
    alloc: Global,
    value: Slot,
    points: &mut PointBuilder,
) -> Result<Reserved, NoMemory>
    ensures puts { OnOk result (Puts (progress points.old) (progress points.new)
        (set_point (progress points.old).slot (truth_source work.NotNull (value.0 ∷ []))
        (place (progress points.old) + 1)
        ∷ branch_point (progress points.old).slot (place (progress points.old) + 2)
        (place (progress points.old) + 3) ∷ jump_point 0 ∷ []) 1) }
    ensures index { IfOk result (λ point. point.index ≡ length (progress points.old).points + 2) }
{
    let yes = points.ahead(2);
    let no = points.ahead(3);
    let args = one_slot(alloc, value)?;
    let work = Work::NotNull;
    let slot = points.compute(Source::Truth { work, args })?;
    points.push(FlowPoint::Branch { slot, yes, no })?;
    points.reserve()
}

/// The begin of `?:` without a middle: a branch, and a point for the copy where the value is true.
#[tactic(auto, using(crate::proofs::EmitLemmas::puts_then))]
pub fn begin_itself(value: Slot, points: &mut PointBuilder) -> Result<Reserved, NoMemory>
    ensures puts { OnOk result (Puts (progress points.old) (progress points.new)
        (branch_point value.0 (place (progress points.old) + 1) (place (progress points.old) + 2)
        ∷ jump_point 0 ∷ []) 0) }
    ensures index { IfOk result (λ point. point.index ≡ length (progress points.old).points + 1) }
{
    let yes = points.ahead(1);
    let no = points.ahead(2);
    points.push(FlowPoint::Branch {
        slot: value,
        yes,
        no,
    })?;
    points.reserve()
}

/// The end of a choice: the result is a copy of the second, and where the reserved point stands a
/// copy of the first.
#[tactic(auto, using(crate::proofs::BranchLemmas::closes_of))]
pub fn finish_copy(
    copy: usize,
    first: Slot,
    second: Slot,
    points: &mut PointBuilder,
) -> Result<Slot, NoMemory>
    requires { copy < length (progress points.old).points }
    ensures slot { IfOk result (λ slot. slot.0 ≡ (progress points.old).slot) }
    ensures closes { OnOk result
        (Closes (progress points.old) (progress points.new) copy
        (set_point (progress points.old).slot (copy_source first.0)
        (place (progress points.old) + 1))
        (set_point (progress points.old).slot (copy_source second.0)
        (place (progress points.old) + 1) ∷ []) 1) }
{
    let next = points.ahead(1);
    let slot = points.set_fresh(Source::Copy(second), next)?;
    let source = Source::Copy(first);
    points.replace(copy, FlowPoint::Set { slot, source, next });
    Ok(slot)
}
