//! The sets of positions behind elements.

ghost use Rattle.std.specs.Prelude.{◌≡◌, ◌+◌, ◌<◌, None, length, map, replicate, IfOk, OnOk};
ghost use Rattle.std.specs.List.{range_with_len};
ghost use Rattle.content_automata.specs.Sets as spec;
ghost use Rattle.content_automata.specs.Walks.{place_at};
ghost use Rattle.content_automata.specs.Ascending as plain;
ghost use Rattle.content_automata.specs.Ascending.{Ascends};
ghost use Rattle.content_automata.specs.PlaceViews.{next_of, position_of, positions_of, step_of, slot_of, slot_set, joined_to, put_behind, behind_of};

use crate::flags::Flags;
use crate::places::{Behind, Place, copied};
use std::alloc::Global;
use text_base::NoMemory;

// In turn each number that is above those before it and below the bound.
fn ascending(alloc: Global, bound: usize, numbers: &[usize]) -> Result<Vec<usize>, NoMemory>
    ensures { IfOk result (λ v. v.items ≡ plain.ascending 0 bound numbers.now) }
{
    let mut found = Vec::new(alloc);
    let mut least: usize = 0;
    for number in numbers {
        if *number < least {
            continue;
        }
        if bound <= *number {
            continue;
        }
        found.push(*number)?;
        least = *number + 1;
    }
    Ok(found)
}

/// The set of what may come next, among so many positions.
pub fn set_of(alloc: Global, count: usize, next: &Behind) -> Result<Flags, NoMemory>
    ensures { IfOk result (λ f. f ≡ spec.set_of count (next_of next.now)) }
{
    let mut sorted = Vec::from_slice(alloc, next.positions.as_slice())?;
    sorted.sort_unstable();
    let members = ascending(alloc, count, sorted.as_slice())?;
    Ok(Flags::new(next.whole, count, members))
}

// Nothing yet, for each of so many elements.
fn nothing(alloc: Global, elements: usize) -> Result<Vec<Option<Behind>>, NoMemory>
    ensures { IfOk result (λ v. map slot_of v.items ≡ replicate elements None) }
{
    let mut slots = Vec::new(alloc);
    for _element in 0..elements {
        slots.push(None)?;
    }
    Ok(slots)
}

// What was there already, if anything, and then this.
fn joined(alloc: Global, slot: Option<Behind>, more: &Behind) -> Result<Behind, NoMemory>
    ensures { IfOk result (λ b. next_of b ≡ joined_to (slot_of slot) (next_of more.now)) }
{
    match slot {
        None => copied(alloc, more),
        Some(before) => {
            let mut positions = before.positions;
            positions.extend_from_slice(more.positions.as_slice())?;
            Ok(Behind {
                positions,
                whole: before.whole || more.whole,
            })
        }
    }
}

// The place of a position.
#[tactic(auto, using(crate::proofs::SetLemmas::place_is))]
pub(crate) fn place_of(places: &[Place], position: usize) -> &Place
    requires { position < length places.now }
    ensures { position_of result.now ≡ place_at (positions_of places.now) position }
{
    &places[position]
}

// Puts what may come behind a position to what may come behind its element.
fn gather(alloc: Global, place: &Place, slots: &mut Vec<Option<Behind>>) -> Result<(), NoMemory>
    ensures { OnOk result
        (map slot_of slots.new.items
        ≡ put_behind (map slot_of slots.old.items) (position_of place.now)) }
{
    if place.element >= slots.len() {
        return Ok(());
    }
    let slot = slots[place.element].take();
    let behind = joined(alloc, slot, &place.behind)?;
    slots[place.element] = Some(behind);
    Ok(())
}

// What may come next behind each of so many elements, after one of these positions.
fn gathered(
    alloc: Global,
    elements: usize,
    places: &[Place],
    members: &[usize],
) -> Result<Vec<Option<Behind>>, NoMemory>
    requires { Ascends 0 (length places.now) members.now }
    ensures { IfOk result (λ v. map slot_of v.items
        ≡ map (behind_of (positions_of places.now) members.now) (range_with_len 0 elements)) }
{
    let mut slots = nothing(alloc, elements)?;
    for member in members {
        gather(alloc, place_of(places, *member), &mut slots)?;
    }
    Ok(slots)
}

// The set of what may come next, where something may.
fn slot_set_of(
    alloc: Global,
    count: usize,
    slot: &Option<Behind>,
) -> Result<Option<Flags>, NoMemory>
    ensures { IfOk result (λ f. f ≡ slot_set count (slot_of slot.now)) }
{
    match slot {
        None => Ok(None),
        Some(next) => Ok(Some(set_of(alloc, count, next)?)),
    }
}

/// The set behind each of so many elements; none where no position in the set names the element.
/// Looks at the positions in the set and at those that may come behind them.
pub fn steps(
    alloc: Global,
    elements: usize,
    places: &[Place],
    set: &Flags,
) -> Result<Vec<Option<Flags>>, NoMemory>
    requires { length set.now ≡ length places.now + 1 }
    ensures { IfOk result
        (λ v. v.items ≡ map (step_of (positions_of places.now) set.now) (range_with_len 0 elements)) }
{
    let slots = gathered(alloc, elements, places, set.members())?;
    let mut sets = Vec::new(alloc);
    for slot in &slots {
        sets.push(slot_set_of(alloc, places.len(), slot)?)?;
    }
    Ok(sets)
}
