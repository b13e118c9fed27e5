//! The joins that are asked for, each with what it joins.

ghost use Rattle.std.specs.Prelude.{◌≡◌, ◌↔◌, ◌<◌, ◌+◌, ℕ, List, map, length, vec_len, Some, Contains, slice_get, IfOk, IfSome, IfNone, OnOk};
ghost use Rattle.flow_code.specs.View.{plain_flow_function};
ghost use Rattle.numbered_sets.specs.Numbers.{Keeps};
ghost use Rattle.numbered_sets.specs.Places.{ArePlaces, AreInOrder};
ghost use Rattle.flow_graph.specs.Arrivals.{target};
ghost use Rattle.flow_graph.specs.Found.{number_in};
ghost use Rattle.loose_sets.specs.Versions.{PlainVersion, linked_in};
ghost use Rattle.ssa_form.specs.Views.{versions_seen};
ghost use Rattle.ssa_form.specs.JoinRows.{rows_in, AreEnds};
ghost use Rattle.ssa_form.specs.Behind.{behind_rows};
ghost use Rattle.ssa_form.specs.Joins.{AsksFor, AreFirst, AreRows};
ghost use Rattle.ssa_form.specs.Versions.{joins_in, row_of};

use crate::join_rows::JoinRows;
use crate::marks::ask;
use crate::rows::{Found, put_row};
use crate::version::Version;
use indexmap::IndexSet;
use numbered_sets::{count, number_of};
use std::alloc::Global;
use text_base::NoMemory;

/// Asks for the versions of a row.
pub fn ask_all(asks: &mut IndexSet<(u64, u64)>, row: &[Version]) -> Result<(), NoMemory>
    ensures { OnOk result (AsksFor asks.old.keys asks.new.keys (versions_seen row.now)) }
{
    for version in row {
        ask(asks, *version)?;
    }
    Ok(())
}

/// The join of a number.
pub fn join_of(asks: &IndexSet<(u64, u64)>, number: usize) -> (u64, u64)
    requires { number < length asks.now.keys }
    ensures { slice_get asks.now.keys number ≡ Some result }
{
    match asks.get_index(number) {
        Some(join) => *join,
        None => (0, 0),
    }
}

// The number of a join, if it is asked for.
fn row_number(asks: &IndexSet<(u64, u64)>, point: u64, slot: u64) -> Option<usize>
    ensures some { IfSome result (λ n. slice_get asks.now.keys n ≡ Some (point, slot)) }
    ensures none { IfNone result (Contains asks.now.keys (point, slot) → ⊥) }
    ensures number { result ≡ number_in asks.now.keys point slot }
{
    let _count = count(asks);
    number_of(asks, &(point, slot))
}

/// The versions that the join of a slot at a point joins; none where it is not asked for. In
/// constant time.
pub fn joined<'a>(
    asks: &IndexSet<(u64, u64)>,
    rows: &'a JoinRows,
    point: u64,
    slot: u64,
) -> &'a [Version]
    ensures exact { (v : PlainVersion) → Contains (versions_seen result.now) v
        ↔ linked_in (joins_in asks.now.keys (rows_in rows.now)) point slot v }
    ensures list { versions_seen result.now
        ≡ row_of (rows_in rows.now) (number_in asks.now.keys point slot) }
{
    let _count = count(asks);
    let Some(number) = row_number(asks, point, slot) else {
        return &[];
    };
    rows.row(number)
}

// The next join, with what it joins, which is put in a list that is used for each of them.
fn next_row(
    found_out: Found<'_>,
    asks: &mut IndexSet<(u64, u64)>,
    rows: &mut JoinRows,
    row: &mut Vec<Version>,
) -> Result<(), NoMemory>
    requires places { ArePlaces (map target found_out.arrivals.now.all.items)
        found_out.arrivals.now.at.items }
    requires order { AreInOrder (map target found_out.arrivals.now.all.items)
        found_out.arrivals.now.at.items }
    requires heads { length found_out.heads.now ≡ vec_len found_out.arrivals.now.at }
    requires next { length rows.old.ends.items < length asks.old.keys }
    requires ends { AreEnds (length rows.old.versions.items) 0 rows.old.ends.items }
    ensures keeps { OnOk result (Keeps asks.old.keys asks.new.keys) }
    ensures more { OnOk result (length rows.new.ends.items ≡ length rows.old.ends.items + 1) }
    ensures ends { OnOk result (AreEnds (length rows.new.versions.items) 0 rows.new.ends.items) }
    ensures rows { OnOk result ((firsts : List (ℕ × ℕ)) → AreFirst found_out.entry.heads.now
        → AreRows (map plain_flow_function found_out.entry.functions.now) found_out.entry.heads.now
        (behind_rows found_out.entry)
        found_out.entry.arrivals.now.all.items firsts asks.old.keys (rows_in rows.old)
        → AreRows (map plain_flow_function found_out.entry.functions.now) found_out.entry.heads.now
        (behind_rows found_out.entry)
        found_out.entry.arrivals.now.all.items firsts asks.new.keys (rows_in rows.new)) }
{
    let (point, slot) = join_of(asks, rows.len());
    row.clear();
    put_row(found_out, point, slot, row)?;
    ask_all(asks, row)?;
    rows.push(row)?;
    Ok(())
}

/// What each join joins that is asked for, and then each that another one asks for: each is taken
/// up once.
pub fn rows_of(
    alloc: Global,
    found_out: Found<'_>,
    asks: &mut IndexSet<(u64, u64)>,
) -> Result<JoinRows, NoMemory>
    requires places { ArePlaces (map target found_out.arrivals.now.all.items)
        found_out.arrivals.now.at.items }
    requires order { AreInOrder (map target found_out.arrivals.now.all.items)
        found_out.arrivals.now.at.items }
    requires heads { length found_out.heads.now ≡ vec_len found_out.arrivals.now.at }
    ensures keeps { OnOk result (Keeps asks.old.keys asks.new.keys) }
    ensures len { IfOk result (λ rows. length (rows_in rows) ≡ length asks.new.keys) }
    ensures rows { IfOk result (λ rows. AreFirst found_out.entry.heads.now
        → ((h x : ℕ) → Contains asks.old.keys (h, x) → slice_get found_out.entry.heads.now h
        ≡ Some h)
        → AreRows (map plain_flow_function found_out.entry.functions.now) found_out.entry.heads.now
        (behind_rows found_out.entry)
        found_out.entry.arrivals.now.all.items asks.old.keys asks.new.keys (rows_in rows)) }
{
    let mut rows = JoinRows::new(alloc);
    let mut row = Vec::new(alloc);
    while rows.len() < count(asks) {
        next_row(found_out, asks, &mut rows, &mut row)?;
    }
    Ok(rows)
}
