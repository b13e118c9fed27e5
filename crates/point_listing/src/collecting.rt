//! The keys that a program tells apart.

ghost use Rattle.std.specs.Prelude.{◌≡◌, ◌∷◌, [], ◌++◌, map, flat_map, IfOk, OnOk};
ghost use Rattle.plain_values.specs.Keys.{canonical_integer, canonical_key};
ghost use Rattle.flow_code.specs.Points.{points_in};
ghost use Rattle.flow_code.specs.View.{plain_key_ref, plain_maybe_key, plain_item, plain_source, plain_point, plain_flow_function, plain_flow};
ghost use Rattle.loose_sets.specs.Keys as keys;
ghost use Rattle.point_listing.specs.Views.{keys_seen};
ghost use Rattle.point_listing.specs.Collected.{told_after};

use crate::key::{ToldKey, place_of_key};
use flow_code::{FlowFunction, FlowPoint, FlowProgram, KeyRef, Source};
use loose_sets::TOLD_KEYS;
use plain_values::canonical_integer;
use std::alloc::Global;
use text_base::{Bytes, NoMemory, Slot};

// The key that a text stands for.
fn text_key(alloc: Global, text: &Bytes) -> Result<ToldKey, NoMemory>
    ensures { IfOk result (λ key. keys_seen (key ∷ [])
        ≡ canonical_key text.now (canonical_integer text.now) ∷ []) }
{
    match canonical_integer(alloc, text.as_slice())? {
        Some(number) => Ok(ToldKey::Int(number)),
        None => Ok(ToldKey::Text(text.copy(alloc)?)),
    }
}

// The key of a literal, behind the others.
#[tactic(auto, unfolding(loose_sets::specs::Keys::literal_key), using(crate::proofs::CollectLemmas::ends))]
fn push_key(alloc: Global, told: &mut Vec<ToldKey>, key: &KeyRef) -> Result<(), NoMemory>
    ensures { OnOk result (keys_seen told.new.items
        ≡ keys_seen told.old.items ++ keys.listed (keys.literal_key (plain_key_ref key.now))) }
{
    match key {
        KeyRef::Int(number) => {
            told.push(ToldKey::Int(*number))?;
            Ok(())
        }
        KeyRef::Text(text) => {
            let text = text_key(alloc, text)?;
            told.push(text)?;
            Ok(())
        }
        KeyRef::Read(_) => Ok(()),
    }
}

// The key of a literal is told apart too, where it is a new one and there is room.
fn tell(alloc: Global, told: &mut Vec<ToldKey>, key: &KeyRef) -> Result<(), NoMemory>
    ensures { OnOk result (keys_seen told.new.items
        ≡ told_after (keys_seen told.old.items)
        (keys.listed (keys.literal_key (plain_key_ref key.now)))) }
{
    if told.len() >= TOLD_KEYS {
        return Ok(());
    }
    match place_of_key(alloc, key, told)? {
        None => Ok(()),
        Some(Some(_)) => Ok(()),
        Some(None) => push_key(alloc, told, key),
    }
}

// Those of a key that may be left out.
#[tactic(auto, unfolding(crate::specs::Collected::told_after))]
fn tell_maybe(alloc: Global, told: &mut Vec<ToldKey>, key: &Option<KeyRef>) -> Result<(), NoMemory>
    ensures { OnOk result (keys_seen told.new.items
        ≡ told_after (keys_seen told.old.items) (keys.maybe_listed (plain_maybe_key key.now))) }
{
    match key {
        Some(key) => tell(alloc, told, key),
        None => Ok(()),
    }
}

// Those of the items of an array literal.
#[tactic(auto, unfolding(crate::specs::Collected::told_after), using(crate::proofs::CollectLemmas::after))]
fn tell_items(
    alloc: Global,
    told: &mut Vec<ToldKey>,
    items: &[(Option<KeyRef>, Slot)],
) -> Result<(), NoMemory>
    ensures { OnOk result (keys_seen told.new.items
        ≡ told_after (keys_seen told.old.items)
        (flat_map keys.item_key (map plain_item items.now))) }
{
    for item in items {
        tell_maybe(alloc, told, &item.0)?;
    }
    Ok(())
}

// Those of a path.
#[tactic(auto, unfolding(crate::specs::Collected::told_after), using(crate::proofs::CollectLemmas::after))]
fn tell_path(
    alloc: Global,
    told: &mut Vec<ToldKey>,
    path: &[Option<KeyRef>],
) -> Result<(), NoMemory>
    ensures { OnOk result (keys_seen told.new.items
        ≡ told_after (keys_seen told.old.items)
        (flat_map keys.maybe_listed (map plain_maybe_key path.now))) }
{
    for key in path {
        tell_maybe(alloc, told, key)?;
    }
    Ok(())
}

// Those of a source.
#[tactic(auto, unfolding(loose_sets::specs::Keys::source_keys, crate::specs::Collected::told_after))]
fn tell_source(alloc: Global, told: &mut Vec<ToldKey>, source: &Source) -> Result<(), NoMemory>
    ensures { OnOk result (keys_seen told.new.items
        ≡ told_after (keys_seen told.old.items) (keys.source_keys (plain_source source.now))) }
{
    match source {
        Source::MemberOf(_, key) => tell(alloc, told, key),
        Source::ArrayOf(items) => tell_items(alloc, told, items),
        Source::PutIn(_, path, _) => tell_path(alloc, told, path),
        Source::Lit(_)
        | Source::Copy(_)
        | Source::Super(_)
        | Source::Concat(_)
        | Source::Repeat { .. }
        | Source::Implode { .. }
        | Source::Explode { .. }
        | Source::Apply { .. }
        | Source::Number { .. }
        | Source::Truth { .. } => Ok(()),
    }
}

// Those of a point.
#[tactic(auto, unfolding(loose_sets::specs::Keys::point_keys, crate::specs::Collected::told_after))]
fn tell_point(alloc: Global, told: &mut Vec<ToldKey>, point: &FlowPoint) -> Result<(), NoMemory>
    ensures { OnOk result (keys_seen told.new.items
        ≡ told_after (keys_seen told.old.items) (keys.point_keys (plain_point point.now))) }
{
    match point {
        FlowPoint::Set { source, .. } => tell_source(alloc, told, source),
        FlowPoint::Call { .. }
        | FlowPoint::Print { .. }
        | FlowPoint::Echo { .. }
        | FlowPoint::Branch { .. }
        | FlowPoint::Jump { .. }
        | FlowPoint::EachBegin { .. }
        | FlowPoint::EachNext { .. }
        | FlowPoint::KeyOf { .. }
        | FlowPoint::ValueOf { .. }
        | FlowPoint::Return { .. }
        | FlowPoint::Quit { .. } => Ok(()),
    }
}

// Those of the points of a function.
#[tactic(auto, unfolding(crate::specs::Collected::told_after), using(crate::proofs::CollectLemmas::after))]
fn tell_points(alloc: Global, told: &mut Vec<ToldKey>, points: &[FlowPoint]) -> Result<(), NoMemory>
    ensures { OnOk result (keys_seen told.new.items
        ≡ told_after (keys_seen told.old.items)
        (flat_map keys.point_keys (map plain_point points.now))) }
{
    for point in points {
        tell_point(alloc, told, point)?;
    }
    Ok(())
}

// Those of functions, one after the other.
#[tactic(auto, unfolding(flow_code::specs::Points::points_in, crate::specs::Collected::told_after), using(crate::proofs::CollectLemmas::after))]
fn tell_functions(
    alloc: Global,
    told: &mut Vec<ToldKey>,
    functions: &[FlowFunction],
) -> Result<(), NoMemory>
    ensures { OnOk result (keys_seen told.new.items ≡ told_after (keys_seen told.old.items)
        (flat_map keys.point_keys (points_in (map plain_flow_function functions.now)))) }
{
    for function in functions {
        tell_points(alloc, told, &function.points)?;
    }
    Ok(())
}

/// The keys that a program tells apart: the first 64 that stand in it as literals, in the order of
/// points. Its time is linear in the program.
#[tactic(auto, unfolding(loose_sets::specs::Keys::told_keys), using(crate::proofs::CollectLemmas::after_none))]
pub fn told_keys(alloc: Global, flow: &FlowProgram) -> Result<Vec<ToldKey>, NoMemory>
    ensures { IfOk result (λ told. keys_seen told.items ≡ keys.told_keys (plain_flow flow.now)) }
{
    let mut told = Vec::new(alloc);
    tell_functions(alloc, &mut told, &flow.functions)?;
    Ok(told)
}
