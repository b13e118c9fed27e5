//! Versions made anew, with the version in the place of each join that is no more than that.

ghost use Rattle.std.specs.Prelude.{◌≡◌, ◌≤◌, ◌<◌, ◌+◌, ℕ, [], suc, length, Some, Contains, slice_get, IfOk, IfSome, OnOk};
ghost use Rattle.flow_code.specs.Points.{PlainFlow};
ghost use Rattle.numbered_sets.specs.Numbers.{Keeps};
ghost use Rattle.ssa_form.specs.Views.{versions_seen, held};
ghost use Rattle.ssa_form.specs.JoinRows.{rows_in, AreEnds};
ghost use Rattle.ssa_form.specs.Replacing.{ArePut, AreLinked, ReplacesAll, AreHeld, AreAsked, AreMadeAnew};

use crate::join_rows::JoinRows;
use crate::joins::{ask_all, join_of, joined};
use crate::marks::{ask, put};
use crate::places::settled;
use crate::version::Version;
use indexmap::{IndexMap, IndexSet};
use numbered_sets::count;
use std::alloc::Global;
use text_base::NoMemory;

/// Joins with their rows, and a version in the place of each.
#[derive(Clone, Copy)]
pub struct Placed<'a> {
    /// The joins, each a point and a slot.
    pub asks: &'a IndexSet<(u64, u64)>,
    /// What each joins.
    pub rows: &'a JoinRows,
    /// A version in the place of each.
    pub places: &'a [Version],
}

// The entry of a map at a place.
fn entry_at(versions: &IndexMap<(u64, u64), Version>, place: usize) -> Option<((u64, u64), Version)>
    ensures entry { result ≡ slice_get versions.now.entries place }
    ensures held { IfSome result (λ e. held versions.now e.0.0 e.0.1 ≡ Some e.1) }
{
    match versions.get_index(place) {
        Some((key, version)) => Some((*key, *version)),
        None => None,
    }
}

// Holds the version in the place of the one that is held at a place, and asks for it.
fn put_version(
    old: &IndexMap<(u64, u64), Version>,
    place: usize,
    placed: Placed<'_>,
    versions: &mut IndexMap<(u64, u64), Version>,
    asks: &mut IndexSet<(u64, u64)>,
) -> Result<(), NoMemory>
    ensures { OnOk result ((flow : PlainFlow)
        → ArePut flow placed.entry.asks.now.keys placed.entry.places.now
        → AreAsked placed.entry.asks.now.keys old.now
        → AreHeld flow placed.entry.asks.now.keys old.now versions.old asks.old.keys place
        → AreHeld flow placed.entry.asks.now.keys old.now versions.new asks.new.keys (suc place)) }
{
    if let Some(((point, slot), version)) = entry_at(old, place) {
        let kept = settled(placed.asks, placed.places, version);
        ask(asks, kept)?;
        put(versions, point, slot, kept)?;
    }
    Ok(())
}

/// The versions in the places of those that a map holds, which are asked for.
pub fn put_versions(
    alloc: Global,
    old: &IndexMap<(u64, u64), Version>,
    placed: Placed<'_>,
    asks: &mut IndexSet<(u64, u64)>,
) -> Result<IndexMap<(u64, u64), Version>, NoMemory>
    requires empty { asks.old.keys ≡ [] }
    ensures { IfOk result (λ versions. (flow : PlainFlow)
        → ArePut flow placed.entry.asks.now.keys placed.entry.places.now
        → AreAsked placed.entry.asks.now.keys old.now
        → AreHeld flow placed.entry.asks.now.keys old.now versions asks.new.keys
        (length old.now.entries)) }
{
    let mut versions = IndexMap::new(alloc);
    for place in 0..old.len() {
        put_version(old, place, placed, &mut versions, asks)?;
    }
    Ok(versions)
}

// Puts the versions in the places of others behind a row.
fn settle_all(placed: Placed<'_>, links: &[Version], row: &mut Vec<Version>) -> Result<(), NoMemory>
    requires empty { row.old.items ≡ [] }
    ensures { OnOk result ((flow : PlainFlow)
        → ArePut flow placed.entry.asks.now.keys placed.entry.places.now
        → ReplacesAll flow placed.entry.asks.now.keys (versions_seen links.now)
        (versions_seen row.new.items)) }
{
    for link in links {
        row.push(settled(placed.asks, placed.places, *link))?;
    }
    Ok(())
}

// The next join that is asked for, with what it joins, which is put in a list that is used for each
// of them.
fn next_row(
    placed: Placed<'_>,
    asks: &mut IndexSet<(u64, u64)>,
    rows: &mut JoinRows,
    row: &mut Vec<Version>,
) -> Result<(), NoMemory>
    requires next { length rows.old.ends.items < length asks.old.keys }
    requires ends { AreEnds (length rows.old.versions.items) 0 rows.old.ends.items }
    ensures keeps { OnOk result (Keeps asks.old.keys asks.new.keys) }
    ensures more { OnOk result (length rows.new.ends.items ≡ length rows.old.ends.items + 1) }
    ensures ends { OnOk result (AreEnds (length rows.new.versions.items) 0 rows.new.ends.items) }
    ensures rows { OnOk result ((flow : PlainFlow)
        → ArePut flow placed.entry.asks.now.keys placed.entry.places.now
        → AreLinked flow placed.entry.asks.now.keys (rows_in placed.entry.rows.now)
        → AreMadeAnew flow placed.entry.asks.now.keys (rows_in placed.entry.rows.now)
        asks.old.keys (rows_in rows.old)
        → AreMadeAnew flow placed.entry.asks.now.keys (rows_in placed.entry.rows.now)
        asks.new.keys (rows_in rows.new)) }
{
    let (point, slot) = join_of(asks, rows.len());
    row.clear();
    settle_all(placed, joined(placed.asks, placed.rows, point, slot), row)?;
    ask_all(asks, row)?;
    rows.push(row)?;
    Ok(())
}

/// What each join joins that is asked for anew, and then each that another one asks for: what it
/// joined, with the versions in their places.
pub fn rows_anew(
    alloc: Global,
    placed: Placed<'_>,
    asks: &mut IndexSet<(u64, u64)>,
) -> Result<JoinRows, NoMemory>
    ensures keeps { OnOk result (Keeps asks.old.keys asks.new.keys) }
    ensures len { IfOk result (λ rows. length (rows_in rows) ≡ length asks.new.keys) }
    ensures rows { IfOk result (λ rows. (flow : PlainFlow)
        → ArePut flow placed.entry.asks.now.keys placed.entry.places.now
        → AreLinked flow placed.entry.asks.now.keys (rows_in placed.entry.rows.now)
        → ((p x : ℕ) → Contains asks.old.keys (p, x)
        → Contains placed.entry.asks.now.keys (p, x))
        → AreMadeAnew flow placed.entry.asks.now.keys (rows_in placed.entry.rows.now)
        asks.new.keys (rows_in rows)) }
{
    let mut rows = JoinRows::new(alloc);
    let mut row = Vec::new(alloc);
    while rows.len() < count(asks) {
        next_row(placed, asks, &mut rows, &mut row)?;
    }
    Ok(rows)
}
