//! All states, one after another.

ghost use Rattle.std.specs.Prelude.{◌≡◌, ◌≤◌, ◌<◌, ◌+◌, [], length, map, take, Some, slice_get, IfOk, IfErr, OnOk};
ghost use Rattle.std.specs.List.{IsDistinct};
ghost use Rattle.content_automata.specs.Tables.{Key, key_eq, Keeps, AllReached, AreSized, RowFits, RowsFit, FirstsFit};
ghost use Rattle.content_automata.specs.declared.limits.TheConstants.{STATE_LIMIT, MOVE_LIMIT};
ghost use Rattle.content_automata.specs.Refusals.{IsOver, AreTooMany};
ghost use Rattle.content_automata.specs.Counts.{moves_at, moves_in};
ghost use Rattle.content_automata.specs.Views.{shape_of, shapes_of, row_of, BeginsAt, HasRow};

use crate::Flags;
use crate::limits::MOVE_LIMIT;
use crate::model::{Model, first_state, moves_of};
use crate::places::added;
use crate::refusal::ContentRefusal;
use crate::table::{cells, number};
use indexmap::IndexSet;
use std::alloc::Global;
use text_base::NoMemory;

/// A state: whether a match may end there, and the state behind each element.
#[derive(Debug, Drop)]
pub struct State {
    pub ends: bool,
    pub behind: Vec<Option<u16>>,
}

fn begin_one(
    alloc: Global,
    models: &[Model],
    element: usize,
    keys: &mut IndexSet<(u64, Flags)>,
) -> Result<u16, ContentRefusal>
    requires { element < length models.now }
    ensures number { IfOk result (λ n. BeginsAt (shapes_of models.now) keys.new.keys element n) }
    ensures few { OnOk result (length keys.new.keys ≤ STATE_LIMIT) }
    ensures keeps { Keeps keys.old.keys keys.new.keys }
    ensures reached { AllReached (shapes_of models.now) keys.old.keys
        → AllReached (shapes_of models.now) keys.new.keys }
    ensures limit { IfErr result (IsOver keys.new.keys) }
{
    let first = first_state(alloc, model_at(models, element))?;
    number(keys, (element as u64, first))
}

/// Puts down the states that elements begin in, and gives their numbers.
pub fn begin(
    alloc: Global,
    models: &[Model],
    keys: &mut IndexSet<(u64, Flags)>,
) -> Result<Vec<u16>, ContentRefusal>
    requires { keys.old.keys ≡ [] }
    ensures firsts { IfOk result
        (λ v. FirstsFit (shapes_of models.now) keys.new.keys v.items (length models.now)) }
    ensures few { OnOk result (length keys.new.keys ≤ STATE_LIMIT) }
    ensures reached { AllReached (shapes_of models.now) keys.new.keys }
    ensures limit { IfErr result (IsOver keys.new.keys) }
{
    let mut firsts = Vec::new(alloc);
    for element in 0..models.len() {
        let first = begin_one(alloc, models, element, keys)?;
        match firsts.push(first) {
            Ok(()) => {}
            Err(_) => return Err(ContentRefusal::Memory),
        }
    }
    Ok(firsts)
}

// A second one of the state of this number.
fn key_at(
    alloc: Global,
    keys: &IndexSet<(u64, Flags)>,
    number: usize,
) -> Result<(u64, Flags), NoMemory>
    requires { number < length keys.now.keys }
    ensures { IfOk result (λ k. slice_get keys.now.keys number ≡ Some k) }
{
    match keys.get_index(number) {
        Some(key) => Ok((key.0, key.1.copy(alloc)?)),
        None => unreachable!(),
    }
}

// The model of an element.
#[tactic(auto, using(crate::proofs::ExploreLemmas::shapes))]
fn model_at(models: &[Model], element: usize) -> &Model
    requires { element < length models.now }
    ensures { slice_get (shapes_of models.now) element ≡ Some (shape_of result.now) }
{
    &models[element]
}

// The row of the state of this number.
fn state_at(
    alloc: Global,
    models: &[Model],
    at: usize,
    keys: &mut IndexSet<(u64, Flags)>,
) -> Result<State, ContentRefusal>
    requires within { at < length keys.old.keys }
    requires sized { AreSized (shapes_of models.now) }
    requires reached { AllReached (shapes_of models.now) keys.old.keys }
    ensures row { IfOk result
        (λ s. HasRow (shapes_of models.now) keys.old.keys keys.new.keys at (row_of s)) }
    ensures few { OnOk result (length keys.old.keys ≤ STATE_LIMIT → length keys.new.keys ≤ STATE_LIMIT) }
    ensures keeps { Keeps keys.old.keys keys.new.keys }
    ensures reached { AllReached (shapes_of models.now) keys.new.keys }
    ensures limit { IfErr result (IsOver keys.new.keys) }
{
    let (element, flags) = key_at(alloc, keys, at)?;
    let model = model_at(models, element as usize);
    let behind = cells(alloc, models.len(), model, element, &flags, keys)?;
    Ok(State {
        ends: flags.has_end(),
        behind,
    })
}

// How many moves the state of this number has.
fn moves_of_state(
    models: &[Model],
    keys: &IndexSet<(u64, Flags)>,
    at: usize,
) -> Result<usize, NoMemory>
    requires within { at < length keys.now.keys }
    requires sized { AreSized (shapes_of models.now) }
    requires reached { AllReached (shapes_of models.now) keys.now.keys }
    ensures { IfOk result (λ n. (k : Key) → slice_get keys.now.keys at ≡ Some k
        → n ≡ moves_at (shapes_of models.now) k) }
{
    match keys.get_index(at) {
        Some(key) => {
            let count = moves_of(model_at(models, key.0 as usize), &key.1)?;
            Ok(count)
        }
        None => unreachable!(),
    }
}

// The moves that were counted, with those of the state of this number: within the limit, or why no
// table is built.
fn counted(
    models: &[Model],
    keys: &IndexSet<(u64, Flags)>,
    at: usize,
    sum: usize,
) -> Result<usize, ContentRefusal>
    requires within { at < length keys.now.keys }
    requires sized { AreSized (shapes_of models.now) }
    requires reached { AllReached (shapes_of models.now) keys.now.keys }
    requires apart { IsDistinct key_eq keys.now.keys }
    requires sum { sum ≡ moves_in (shapes_of models.now) (take at keys.now.keys) }
    ensures sum { IfOk result (λ n. n ≡ moves_in (shapes_of models.now) (take (at + 1) keys.now.keys)) }
    ensures few { IfOk result (λ n. n ≤ MOVE_LIMIT) }
    ensures limit { IfErr result (AreTooMany (shapes_of models.now) keys.now.keys) }
{
    let sum = added(sum, moves_of_state(models, keys, at)?)?;
    if sum > MOVE_LIMIT {
        return Err(ContentRefusal::Limit { count: sum as u64 });
    }
    Ok(sum)
}

/// The rows of all states that are reached.
pub fn explore(
    alloc: Global,
    models: &[Model],
    keys: &mut IndexSet<(u64, Flags)>,
) -> Result<Vec<State>, ContentRefusal>
    requires few { length keys.old.keys ≤ STATE_LIMIT }
    requires sized { AreSized (shapes_of models.now) }
    requires reached { AllReached (shapes_of models.now) keys.old.keys }
    ensures rows { IfOk result
        (λ v. RowsFit (shapes_of models.now) keys.new.keys (map row_of v.items)
        (length keys.new.keys)) }
    ensures few { OnOk result (length keys.new.keys ≤ STATE_LIMIT) }
    ensures apart { OnOk result (IsDistinct key_eq keys.new.keys) }
    ensures keeps { Keeps keys.old.keys keys.new.keys }
    ensures reached { AllReached (shapes_of models.now) keys.new.keys }
    ensures moves { OnOk result (moves_in (shapes_of models.now) keys.new.keys ≤ MOVE_LIMIT) }
    ensures limit { IfErr result (AreTooMany (shapes_of models.now) keys.new.keys) }
{
    let mut states = Vec::new(alloc);
    let mut next = 0;
    let mut moves = 0;
    'states: while next < keys.len() {
        moves = counted(models, keys, next, moves)?;
        let state = match state_at(alloc, models, next, keys) {
            Ok(state) => state,
            Err(refusal) => return Err(refusal),
        };
        match states.push(state) {
            Ok(()) => {}
            Err(_) => return Err(ContentRefusal::Memory),
        }
        next += 1;
    }
    Ok(states)
}
