//! The slots that a point reads.

ghost use Rattle.std.specs.Prelude.{◌≡◌, ◌++◌, ◌∷◌, [], map, flat_map, IfOk, OnOk};
ghost use Rattle.flow_code.specs.Lawful as lawful;
ghost use Rattle.flow_code.specs.View.{slot_number, plain_key_ref, plain_maybe_key, plain_item, plain_source, plain_point};
ghost use Rattle.flow_graph.specs.Steps.{numbers};

use flow_code::{FlowPoint, KeyRef, Source};
use std::alloc::Global;
use text_base::{NoMemory, Slot};

// One slot more.
#[tactic(auto, using(crate::proofs::NumberLemmas::ends))]
fn put(slot: Slot, reads: &mut Vec<Slot>) -> Result<(), NoMemory>
    ensures { OnOk result (numbers reads.new.items ≡ numbers reads.old.items ++ slot.0 ∷ []) }
{
    reads.push(slot)?;
    Ok(())
}

// Slots in a row.
#[tactic(auto, using(crate::proofs::NumberLemmas::ends))]
fn of_slots(slots: &[Slot], reads: &mut Vec<Slot>) -> Result<(), NoMemory>
    ensures { OnOk result
        (numbers reads.new.items ≡ numbers reads.old.items ++ map slot_number slots.now) }
{
    for slot in slots {
        put(*slot, reads)?;
    }
    Ok(())
}

// A slot, and then others.
#[tactic(auto, using(crate::proofs::NumberLemmas::ends))]
fn of_first(first: Slot, slots: &[Slot], reads: &mut Vec<Slot>) -> Result<(), NoMemory>
    ensures { OnOk result
        (numbers reads.new.items ≡ numbers reads.old.items ++ first.0 ∷ map slot_number slots.now) }
{
    put(first, reads)?;
    of_slots(slots, reads)
}

// A key.
#[tactic(auto, using(crate::proofs::NumberLemmas::ends))]
fn of_key(key: &KeyRef, reads: &mut Vec<Slot>) -> Result<(), NoMemory>
    ensures { OnOk result
        (numbers reads.new.items ≡ numbers reads.old.items
        ++ lawful.key_slots (plain_key_ref key.now)) }
{
    match key {
        KeyRef::Read(slot) => put(*slot, reads),
        KeyRef::Int(_) | KeyRef::Text(_) => Ok(()),
    }
}

// A key that may be left out.
#[tactic(auto, using(crate::proofs::NumberLemmas::ends))]
fn of_maybe_key(key: &Option<KeyRef>, reads: &mut Vec<Slot>) -> Result<(), NoMemory>
    ensures { OnOk result (numbers reads.new.items ≡ numbers reads.old.items
        ++ lawful.maybe_key_slots (plain_maybe_key key.now)) }
{
    match key {
        Some(key) => of_key(key, reads),
        None => Ok(()),
    }
}

// The items of an array.
#[tactic(auto, using(crate::proofs::NumberLemmas::ends))]
fn of_items(items: &[(Option<KeyRef>, Slot)], reads: &mut Vec<Slot>) -> Result<(), NoMemory>
    ensures { OnOk result (numbers reads.new.items ≡ numbers reads.old.items
        ++ flat_map lawful.item_slots (map plain_item items.now)) }
{
    for item in items {
        of_maybe_key(&item.0, reads)?;
        put(item.1, reads)?;
    }
    Ok(())
}

// The keys of a path.
#[tactic(auto, using(crate::proofs::NumberLemmas::ends))]
fn of_path(path: &[Option<KeyRef>], reads: &mut Vec<Slot>) -> Result<(), NoMemory>
    ensures { OnOk result (numbers reads.new.items ≡ numbers reads.old.items
        ++ flat_map lawful.maybe_key_slots (map plain_maybe_key path.now)) }
{
    for key in path {
        of_maybe_key(key, reads)?;
    }
    Ok(())
}

// A value with another one written in.
#[tactic(auto, using(crate::proofs::NumberLemmas::ends))]
fn of_put(
    old: Slot,
    path: &[Option<KeyRef>],
    value: Slot,
    reads: &mut Vec<Slot>,
) -> Result<(), NoMemory>
    ensures { OnOk result (numbers reads.new.items ≡ numbers reads.old.items
        ++ old.0 ∷ flat_map lawful.maybe_key_slots (map plain_maybe_key path.now) ++ value.0 ∷ []) }
{
    put(old, reads)?;
    of_path(path, reads)?;
    put(value, reads)
}

// What a slot is set to.
#[tactic(auto, using(crate::proofs::NumberLemmas::ends), unfolding(flow_code::specs::Lawful::source_reads))]
fn of_source(source: &Source, reads: &mut Vec<Slot>) -> Result<(), NoMemory>
    ensures { OnOk result (numbers reads.new.items ≡ numbers reads.old.items
        ++ lawful.source_reads (plain_source source.now)) }
{
    match source {
        Source::Lit(_) | Source::Super(_) => Ok(()),
        Source::Copy(from) => put(*from, reads),
        Source::MemberOf(from, key) => {
            put(*from, reads)?;
            of_key(key, reads)
        }
        Source::ArrayOf(items) => of_items(items, reads),
        Source::PutIn(old, path, value) => of_put(*old, path, *value, reads),
        Source::Concat(parts) => of_slots(parts, reads),
        Source::Implode {
            sep,
            from,
            args,
            ..
        } => {
            put(*sep, reads)?;
            of_first(*from, args, reads)
        }
        Source::Repeat { from, args, .. }
        | Source::Explode { from, args, .. }
        | Source::Apply { from, args, .. } => of_first(*from, args, reads),
        Source::Number { args, .. } | Source::Truth { args, .. } => of_slots(args, reads),
    }
}

/// The slots that a point reads, in the order of `reads`.
#[tactic(auto, using(crate::proofs::NumberLemmas::ends), unfolding(flow_code::specs::Lawful::reads))]
pub(crate) fn reads_of(alloc: Global, point: &FlowPoint) -> Result<Vec<Slot>, NoMemory>
    ensures { IfOk result (λ slots. numbers slots.items ≡ lawful.reads (plain_point point.now)) }
{
    let mut reads = Vec::new(alloc);
    match point {
        FlowPoint::Set { source, .. } => of_source(source, &mut reads)?,
        FlowPoint::Call { args, .. } => of_slots(args, &mut reads)?,
        FlowPoint::Echo { slot, .. }
        | FlowPoint::Branch { slot, .. }
        | FlowPoint::EachNext { slot, .. }
        | FlowPoint::Return { slot } => put(*slot, &mut reads)?,
        FlowPoint::EachBegin { from, .. }
        | FlowPoint::KeyOf { from, .. }
        | FlowPoint::ValueOf { from, .. } => put(*from, &mut reads)?,
        FlowPoint::Quit { slot: Some(slot) } => put(*slot, &mut reads)?,
        FlowPoint::Quit { slot: None } | FlowPoint::Print { .. } | FlowPoint::Jump { .. } => {}
    }
    Ok(reads)
}
