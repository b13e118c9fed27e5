//! What the automaton does at each state.

ghost use Rattle.std.specs.Prelude.{◌≡◌, ◌<◌, ◌≤◌, length, map, Some, IfOk};
ghost use Rattle.std.specs.List.{range_with_len};
ghost use Rattle.tag_sums.specs.Labels.{child, other};
ghost use Rattle.tag_sums.specs.Sum.{by_label, by_state};
ghost use Rattle.segment_summary.specs.Parts.{automaton_of};
ghost use Rattle.segment_summary.specs.View.{mark_of};

use crate::rules::Mark;
use crate::segments::Segments;
use crate::state_set::StateSet;
use std::alloc::Global;
use text_base::{Elem, NoMemory};

/// Each state to itself.
pub fn stay(alloc: Global, count: u16) -> Result<Vec<Option<u16>>, NoMemory>
    ensures { IfOk result (λ m. m.items ≡ map Some (range_with_len 0 count)) }
{
    let mut moves = Vec::new(alloc);
    for state in 0..count {
        moves.push(Some(state))?;
    }
    Ok(moves)
}

/// Where a child leads.
pub fn child_row(
    alloc: Global,
    segments: &Segments,
    element: Elem,
) -> Result<Vec<Option<u16>>, NoMemory>
    ensures { IfOk result (λ m. m.items ≡ by_label (automaton_of segments.now) (child element.0)) }
{
    let mut moves = Vec::new(alloc);
    for state in 0..segments.count() {
        moves.push(segments.child_step(state, element))?;
    }
    Ok(moves)
}

/// Where a mark leads.
pub fn mark_row(
    alloc: Global,
    segments: &Segments,
    mark: Mark,
) -> Result<Vec<Option<u16>>, NoMemory>
    ensures { IfOk result
        (λ m. m.items ≡ by_label (automaton_of segments.now) (other (mark_of mark))) }
{
    let mut moves = Vec::new(alloc);
    for state in 0..segments.count() {
        moves.push(segments.mark_step(state, mark))?;
    }
    Ok(moves)
}

/// The states in which an element may end.
pub fn closing_states(
    alloc: Global,
    segments: &Segments,
    element: Elem,
) -> Result<StateSet, NoMemory>
    ensures { IfOk result
        (λ s. s ≡ by_state (automaton_of segments.now)
        ((automaton_of segments.now).closes element.0)) }
{
    let mut bits = Vec::new(alloc);
    for state in 0..segments.count() {
        bits.push(segments.closes(element, state))?;
    }
    Ok(StateSet { bits })
}
