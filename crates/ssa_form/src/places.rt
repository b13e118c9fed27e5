//! A version in the place of each join that is no more than that version: of what comes to such a
//! join, looked up in turn, all is the version, or the join itself (Braun and others, Simple and
//! Efficient Construction of Static Single Assignment Form, 2013, 3.1).

ghost use Rattle.std.specs.Prelude.{◌≡◌, ◌<◌, ◌++◌, ◌∷◌, [], ℕ, List, length, IfOk, IfSome};
ghost use Rattle.flow_code.specs.Points.{PlainFlow};
ghost use Rattle.loose_sets.specs.Versions.{PlainVersion};
ghost use Rattle.ssa_form.specs.Views.{version_seen, versions_seen};
ghost use Rattle.ssa_form.specs.JoinRows.{rows_in};
ghost use Rattle.ssa_form.specs.Replacing.{Replaces, ArePut, AreThemselves, AreLinked, IsAll, IsSeen};

use crate::join_rows::{JoinRows, is_same};
use crate::joins::join_of;
use crate::version::Version;
use indexmap::IndexSet;
use numbered_sets::{count, number_of};
use std::alloc::Global;
use text_base::{NoMemory, Point, Slot};

// How many versions are looked up in turn at most, each in the place of the one before it: so that
// each look takes constant time. What is found is in its place all the same.
const LOOKS: u64 = 16;

// How often all joins are gone over at most, so that all of it is linear.
const ROUNDS: u64 = 16;

/// Which versions come to a join, but for the join itself.
#[derive(Clone, Copy)]
pub enum Seen {
    /// None so far.
    Nothing,
    /// One alone.
    One(Version),
    /// Several.
    Several,
}

// The version that is put in the place of a join; a definition stays.
fn place_of(asks: &IndexSet<(u64, u64)>, places: &[Version], version: Version) -> Version
    ensures { (flow : PlainFlow) → ArePut flow asks.now.keys places.now
        → Replaces flow asks.now.keys (version_seen version) (version_seen result) }
{
    let Version::Join { point, slot } = version else {
        return version;
    };
    let _count = count(asks);
    let Some(number) = number_of(asks, &(point.0, slot.0)) else {
        return version;
    };
    match places.get(number) {
        Some(place) => *place,
        None => version,
    }
}

/// The version that stands for a version: what is in its place, and in the place of that, and so on.
pub fn settled(asks: &IndexSet<(u64, u64)>, places: &[Version], version: Version) -> Version
    ensures { (flow : PlainFlow) → ArePut flow asks.now.keys places.now
        → Replaces flow asks.now.keys (version_seen version) (version_seen result) }
{
    let mut found = version;
    for _ in 0..LOOKS {
        let next = place_of(asks, places, found);
        if is_same(next, found) {
            return found;
        }
        found = next;
    }
    found
}

// What is seen with one version more, which stands for one that comes to a join.
fn seen_with(seen: Seen, own: Version, version: Version) -> Seen
    ensures { (flow : PlainFlow) (asks : List (ℕ × ℕ)) (row : List PlainVersion) (u : PlainVersion)
        → IsSeen flow asks row (version_seen own) seen → Replaces flow asks u (version_seen version)
        → IsSeen flow asks (row ++ u ∷ []) (version_seen own) result }
{
    if is_same(version, own) {
        return seen;
    }
    match seen {
        Seen::Nothing => Seen::One(version),
        Seen::One(other) => {
            if is_same(other, version) {
                Seen::One(other)
            } else {
                Seen::Several
            }
        }
        Seen::Several => Seen::Several,
    }
}

// The one version that comes to a join, but for the join itself.
fn only_one(
    asks: &IndexSet<(u64, u64)>,
    places: &[Version],
    row: &[Version],
    own: Version,
) -> Option<Version>
    ensures { IfSome result (λ v. (flow : PlainFlow) → ArePut flow asks.now.keys places.now
        → IsAll flow asks.now.keys (versions_seen row.now) (version_seen own) (version_seen v)) }
{
    let mut seen = Seen::Nothing;
    for link in row {
        let version = settled(asks, places, *link);
        seen = seen_with(seen, own, version);
    }
    match seen {
        Seen::One(version) => Some(version),
        Seen::Nothing | Seen::Several => None,
    }
}

// Puts the one version that comes to the join of a number in its place, and tells whether that is a
// new one.
fn replace(
    asks: &IndexSet<(u64, u64)>,
    rows: &JoinRows,
    places: &mut Vec<Version>,
    number: usize,
) -> bool
    requires within { number < length asks.now.keys }
    requires len { length places.old.items ≡ length asks.now.keys }
    ensures len { length places.new.items ≡ length places.old.items }
    ensures put { (flow : PlainFlow) → AreLinked flow asks.now.keys (rows_in rows.now)
        → ArePut flow asks.now.keys places.old.items → ArePut flow asks.now.keys places.new.items }
{
    let _count = count(asks);
    let (point, slot) = join_of(asks, number);
    let own = Version::Join {
        point: Point(point),
        slot: Slot(slot),
    };
    let Some(version) = only_one(asks, places, rows.row(number), own) else {
        return false;
    };
    let before = places[number];
    places[number] = version;
    !is_same(before, version)
}

// The same for all joins in turn, or in turn from the last one.
fn replace_all(
    asks: &IndexSet<(u64, u64)>,
    rows: &JoinRows,
    places: &mut Vec<Version>,
    from_last: bool,
) -> bool
    requires len { length places.old.items ≡ length asks.now.keys }
    ensures len { length places.new.items ≡ length places.old.items }
    ensures put { (flow : PlainFlow) → AreLinked flow asks.now.keys (rows_in rows.now)
        → ArePut flow asks.now.keys places.old.items → ArePut flow asks.now.keys places.new.items }
{
    let all = count(asks);
    let mut changed = false;
    for step in 0..all {
        let number = if from_last { all - 1 - step } else { step };
        let is_new = replace(asks, rows, places, number);
        changed = changed || is_new;
    }
    changed
}

// Each join in its own place.
fn own_places(alloc: Global, asks: &IndexSet<(u64, u64)>) -> Result<Vec<Version>, NoMemory>
    ensures len { IfOk result (λ places. length places.items ≡ length asks.now.keys) }
    ensures own { IfOk result (λ places. AreThemselves asks.now.keys places.items) }
{
    let mut places = Vec::new(alloc);
    for number in 0..count(asks) {
        let (point, slot) = join_of(asks, number);
        places.push(Version::Join {
            point: Point(point),
            slot: Slot(slot),
        })?;
    }
    Ok(places)
}

/// A version in the place of each join, by its number: the join itself where several versions come
/// to it. The joins are gone over, back and forth in turn, since one asks for others that stand
/// farther back and is asked for behind others that do; until nothing changes, and a constant number
/// of times at most, so that it is linear in what they join. That no join is left that is one
/// version is no promise: loops within loops may take more rounds.
pub fn places_of(
    alloc: Global,
    asks: &IndexSet<(u64, u64)>,
    rows: &JoinRows,
) -> Result<Vec<Version>, NoMemory>
    ensures { IfOk result (λ places. (flow : PlainFlow)
        → AreLinked flow asks.now.keys (rows_in rows.now)
        → ArePut flow asks.now.keys places.items) }
{
    let mut places = own_places(alloc, asks)?;
    let mut from_last = true;
    for _ in 0..ROUNDS {
        if !replace_all(asks, rows, &mut places, from_last) {
            return Ok(places);
        }
        from_last = !from_last;
    }
    Ok(places)
}
