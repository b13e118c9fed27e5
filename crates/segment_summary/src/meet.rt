//! The sum of a concatenation.

ghost use Rattle.std.specs.Prelude.{◌≡◌, ◌⊎◌, ◌++◌, ◌∷◌, ℕ, Bool, true, List, [], IfOk, OnOk};
ghost use Rattle.tag_sums.specs.Sum.{Sum, target, after, preimage, some_move, some_state, joined, moved, meet, compose, broken, reduced};
ghost use Rattle.segment_summary.specs.Meeting.{Matched};

use crate::state_set::StateSet;
use crate::sum::{SegmentSum, Shape};
use std::alloc::Global;
use text_base::NoMemory;

/// How many openers the closers match, or none where one does not.
fn matched(openers: &[u16], closers: &[StateSet]) -> Option<usize>
    ensures { Matched openers.now closers.now result }
{
    let mut pairs = 0;
    while pairs < openers.len() && pairs < closers.len() {
        if !closers[pairs].has(openers[pairs]) {
            return None;
        }
        pairs += 1;
    }
    Some(pairs)
}

pub(crate) fn target(map: &[Option<u16>], state: u16) -> Option<u16>
    ensures { result ≡ target map.now state }
{
    match map.get(state as usize) {
        Some(to) => *to,
        None => None,
    }
}

pub(crate) fn has_move(map: &[Option<u16>]) -> bool
    ensures { result ≡ some_move map.now }
{
    let mut found = false;
    for to in map {
        if to.is_some() {
            found = true;
        }
    }
    found
}

pub(crate) fn has_state(states: &StateSet) -> bool
    ensures { result ≡ some_state states.now }
{
    let mut found = false;
    for bit in &states.bits {
        if *bit {
            found = true;
        }
    }
    found
}

/// One map after another.
fn one_after(
    alloc: Global,
    first: &[Option<u16>],
    second: &[Option<u16>],
) -> Result<Vec<Option<u16>>, NoMemory>
    ensures { IfOk result (λ map. map.items ≡ after first.now second.now) }
{
    let mut map = Vec::new(alloc);
    for to in first {
        let next = match *to {
            Some(state) => target(second, state),
            None => None,
        };
        map.push(next)?;
    }
    Ok(map)
}

/// The states from which a map leads into a set.
fn leading_into(alloc: Global, map: &[Option<u16>], set: &StateSet) -> Result<StateSet, NoMemory>
    ensures { IfOk result (λ states. states ≡ preimage map.now set.now) }
{
    let mut bits = Vec::new(alloc);
    for to in map {
        let bit = match *to {
            Some(state) => set.has(state),
            None => false,
        };
        bits.push(bit)?;
    }
    Ok(StateSet { bits })
}

fn add_copies(alloc: Global, sets: &mut Vec<StateSet>, more: &[StateSet]) -> Result<(), NoMemory>
    ensures { OnOk result (sets.new.items ≡ sets.old.items ++ more.now) }
{
    for set in more {
        sets.push(set.copy(alloc)?)?;
    }
    Ok(())
}

/// Where nothing is left to match.
fn join_middles(
    alloc: Global,
    closers: &[StateSet],
    first: &[Option<u16>],
    second: &[Option<u16>],
    openers: &[u16],
) -> Result<SegmentSum, NoMemory>
    ensures { IfOk result (λ sum. sum ≡ joined closers.now (after first.now second.now) openers.now) }
{
    let middle = one_after(alloc, first, second)?;
    if !has_move(middle.as_slice()) {
        return Ok(SegmentSum {
            shape: Shape::Broken,
        });
    }
    let mut all_closers = Vec::new(alloc);
    add_copies(alloc, &mut all_closers, closers)?;
    Ok(SegmentSum {
        shape: Shape::Live {
            closers: all_closers,
            middle,
            openers: openers.to_vec(alloc)?,
        },
    })
}

/// Where a closer is left, with those behind it.
fn join_closers(
    alloc: Global,
    closers: &[StateSet],
    first: &[Option<u16>],
    closer: &StateSet,
    more: &[StateSet],
    second: &[Option<u16>],
    openers: &[u16],
) -> Result<SegmentSum, NoMemory>
    ensures { IfOk result
        (λ sum. sum ≡ meet closers.now first.now [] (closer.now ∷ more.now) second.now openers.now) }
{
    let states = leading_into(alloc, first, closer)?;
    if !has_state(&states) {
        return Ok(SegmentSum {
            shape: Shape::Broken,
        });
    }
    let mut all_closers = Vec::new(alloc);
    add_copies(alloc, &mut all_closers, closers)?;
    all_closers.push(states)?;
    add_copies(alloc, &mut all_closers, more)?;
    Ok(SegmentSum {
        shape: Shape::Live {
            closers: all_closers,
            middle: second.to_vec(alloc)?,
            openers: openers.to_vec(alloc)?,
        },
    })
}

/// Where an opener is left, with those round it.
fn join_openers(
    alloc: Global,
    closers: &[StateSet],
    first: &[Option<u16>],
    opener: u16,
    outer: &[u16],
    second: &[Option<u16>],
    inner: &[u16],
) -> Result<SegmentSum, NoMemory>
    ensures { IfOk result
        (λ sum. sum ≡ meet closers.now first.now (opener ∷ outer.now) [] second.now inner.now) }
{
    let state = match target(second, opener) {
        Some(state) => state,
        None => {
            return Ok(SegmentSum {
                shape: Shape::Broken,
            });
        }
    };
    let mut all_closers = Vec::new(alloc);
    add_copies(alloc, &mut all_closers, closers)?;
    let mut openers = inner.to_vec(alloc)?;
    openers.push(state)?;
    openers.extend_from_slice(outer)?;
    Ok(SegmentSum {
        shape: Shape::Live {
            closers: all_closers,
            middle: first.to_vec(alloc)?,
            openers,
        },
    })
}

fn join_rest(
    alloc: Global,
    closers: &[StateSet],
    first: &[Option<u16>],
    outer: &[u16],
    more: &[StateSet],
    second: &[Option<u16>],
    inner: &[u16],
) -> Result<SegmentSum, NoMemory>
    requires { (outer.now ≡ []) ⊎ (more.now ≡ []) }
    ensures { IfOk result
        (λ sum. sum ≡ meet closers.now first.now outer.now more.now second.now inner.now) }
{
    match outer.split_first() {
        Some((opener, rest)) => join_openers(alloc, closers, first, *opener, rest, second, inner),
        None => match more.split_first() {
            Some((closer, rest)) => {
                join_closers(alloc, closers, first, closer, rest, second, inner)
            }
            None => join_middles(alloc, closers, first, second, inner),
        },
    }
}

/// The sum of what the one stands for and then what the other does.
pub(crate) fn composition(
    alloc: Global,
    a: &SegmentSum,
    b: &SegmentSum,
) -> Result<SegmentSum, NoMemory>
    ensures { IfOk result (λ sum. sum ≡ compose a.now b.now) }
{
    match (&a.shape, &b.shape) {
        (
            Shape::Live {
                closers,
                middle,
                openers,
            },
            Shape::Live {
                closers: next_closers,
                middle: next_middle,
                openers: next_openers,
            },
        ) => match matched(openers.as_slice(), next_closers.as_slice()) {
            Some(pairs) => join_rest(
                alloc,
                closers.as_slice(),
                middle.as_slice(),
                &openers[pairs..],
                &next_closers[pairs..],
                next_middle.as_slice(),
                next_openers.as_slice(),
            ),
            None => Ok(SegmentSum {
                shape: Shape::Broken,
            }),
        },
        _ => Ok(SegmentSum {
            shape: Shape::Broken,
        }),
    }
}
