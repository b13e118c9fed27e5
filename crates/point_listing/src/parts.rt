//! What a point works on: the source to which it sets its slot, and the slots that the source
//! joins, or whose texts it changes.

ghost use Rattle.std.specs.Prelude.{◌≡◌, ◌∷◌, map, Some, None, MatchOption};
ghost use Rattle.flow_code.specs.View.{plain_point, plain_source, slot_number, maybe_slot};
ghost use Rattle.loose_sets.specs.Keys.{listed};
ghost use Rattle.loose_sets.specs.Points as points;

use flow_code::{FlowPoint, Source};
use op_system::Op;
use text_base::Slot;

/// The source to which a point sets its slot.
#[tactic(auto, unfolding(loose_sets::specs::Points::source_at))]
pub(crate) fn source_at(point: &FlowPoint) -> Option<&Source>
    ensures { MatchOption result (points.source_at (plain_point point.now) ≡ None)
        (λ source. points.source_at (plain_point point.now) ≡ Some (plain_source source.now)) }
{
    match point {
        FlowPoint::Set { source, .. } => Some(source),
        FlowPoint::Call { .. }
        | FlowPoint::Print { .. }
        | FlowPoint::Echo { .. }
        | FlowPoint::Branch { .. }
        | FlowPoint::Jump { .. }
        | FlowPoint::EachBegin { .. }
        | FlowPoint::EachNext { .. }
        | FlowPoint::KeyOf { .. }
        | FlowPoint::ValueOf { .. }
        | FlowPoint::Return { .. }
        | FlowPoint::Quit { .. } => None,
    }
}

/// The values that a source joins.
#[tactic(auto, unfolding(loose_sets::specs::Points::joined_slots))]
pub(crate) fn joined_slots(source: &Source) -> Option<&[Slot]>
    ensures { MatchOption result (points.joined_slots (Some (plain_source source.now)) ≡ None)
        (λ parts. points.joined_slots (Some (plain_source source.now))
        ≡ Some (map slot_number parts.now)) }
{
    match source {
        Source::Concat(parts) => Some(parts.as_slice()),
        Source::Lit(_)
        | Source::Copy(_)
        | Source::Super(_)
        | Source::MemberOf(_, _)
        | Source::ArrayOf(_)
        | Source::PutIn(_, _, _)
        | Source::Repeat { .. }
        | Source::Implode { .. }
        | Source::Explode { .. }
        | Source::Apply { .. }
        | Source::Number { .. }
        | Source::Truth { .. } => None,
    }
}

/// The separator of members that a source joins, and their array.
#[tactic(auto, unfolding(loose_sets::specs::Points::imploded_slots))]
pub(crate) fn imploded_slots(source: &Source) -> Option<(Slot, Slot)>
    ensures { MatchOption result (points.imploded_slots (Some (plain_source source.now)) ≡ None)
        (λ slots. points.imploded_slots (Some (plain_source source.now))
        ≡ Some (slots.0.0, slots.1.0)) }
{
    match source {
        Source::Implode { sep, from, .. } => Some((*sep, *from)),
        Source::Lit(_)
        | Source::Copy(_)
        | Source::Super(_)
        | Source::MemberOf(_, _)
        | Source::ArrayOf(_)
        | Source::PutIn(_, _, _)
        | Source::Concat(_)
        | Source::Repeat { .. }
        | Source::Explode { .. }
        | Source::Apply { .. }
        | Source::Number { .. }
        | Source::Truth { .. } => None,
    }
}

/// The operation of a source, and the slots whose texts it reads: the text that it changes, and the
/// replacement where it reads that too.
#[derive(Clone, Copy)]
pub(crate) struct Operation<'a> {
    pub op: &'a Op,
    pub from: Slot,
    pub with: Option<Slot>,
}

// The second of three.
#[tactic(auto, unfolding(loose_sets::specs::Points::replaced_by))]
fn second_of_three(args: &[Slot]) -> Option<Slot>
    ensures { listed (maybe_slot result) ≡ points.replaced_by Op.Any (map slot_number args.now) }
{
    match args {
        [_, with, _] => Some(*with),
        [] | [_] | [_, _] | [_, _, _, _, ..] => None,
    }
}

// Beside the text that it changes, `Any` reads the replacement.
#[tactic(auto, unfolding(loose_sets::specs::Points::replaced_by))]
fn replaced_by(op: &Op, args: &[Slot]) -> Option<Slot>
    ensures { listed (maybe_slot result) ≡ points.replaced_by op.now (map slot_number args.now) }
{
    match op {
        Op::Any => second_of_three(args),
        Op::Same
        | Op::Html
        | Op::Replace { .. }
        | Op::Cut { .. }
        | Op::Factor
        | Op::Lower
        | Op::Upper
        | Op::First
        | Op::Trim { .. }
        | Op::Breaks
        | Op::Url
        | Op::RawUrl
        | Op::Slashes
        | Op::Piece { .. } => None,
    }
}

/// The operation of a source, if it has one.
#[tactic(auto, unfolding(loose_sets::specs::Points::operation_of))]
pub(crate) fn operation_of(source: &Source) -> Option<Operation<'_>>
    ensures { MatchOption result (points.operation_of (Some (plain_source source.now)) ≡ None)
        (λ work. points.operation_of (Some (plain_source source.now))
        ≡ Some (work.op.now, work.from.0 ∷ listed (maybe_slot work.with))) }
{
    match source {
        Source::Apply { op, from, args, .. } => Some(Operation {
            op,
            from: *from,
            with: replaced_by(op, args),
        }),
        Source::Explode { op, from, .. } => Some(Operation {
            op,
            from: *from,
            with: None,
        }),
        Source::Lit(_)
        | Source::Copy(_)
        | Source::Super(_)
        | Source::MemberOf(_, _)
        | Source::ArrayOf(_)
        | Source::PutIn(_, _, _)
        | Source::Concat(_)
        | Source::Repeat { .. }
        | Source::Implode { .. }
        | Source::Number { .. }
        | Source::Truth { .. } => None,
    }
}
