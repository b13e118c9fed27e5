//! Putting pairs into the table.

ghost use Rattle.std.specs.Prelude.{◌≡◌, ◌<◌, ◌≤◌, Some, slice_get, get_or, length, IsTrue, IfOk};
ghost use Rattle.derivations.specs.Nodes.{parts_below};
ghost use Rattle.summary_decision.specs.Tables.{AreNumbered};
ghost use Rattle.summary_decision.specs.Notes.{Notes};

use crate::table::{Entry, Table};
use derivations::Parts;
use numbered_sets::{count, number};
use std::hash::Hash;
use text_base::{Exact, NoMemory};

/// Puts a pair with its node behind the others, where it is new, and says whether it is.
pub fn note<T: Exact + Hash + Drop>(
    table: &mut Table<T>,
    place: u64,
    parts: Parts,
    left: u64,
    sum: T,
) -> Result<bool, NoMemory>
    requires numbered { AreNumbered table.old.sums.keys table.old.entries.keys }
    requires below { IsTrue (parts_below (length table.old.nodes.nodes.items) parts) }
    requires left { left < length table.old.counts.items }
    requires counted { get_or table.old.counts.items left 0 ≤ length table.old.entries.keys }
    ensures { IfOk result (λ is_new. Notes table.old table.new place parts left sum is_new) }
{
    let (sum, _) = number(&mut table.sums, sum)?;
    let _sums = count(&table.sums);
    let entry = Entry {
        nonterminal: left,
        sum: sum as u64,
    };
    let (_, is_new) = number(&mut table.entries, entry)?;
    let _entries = count(&table.entries);
    if !is_new {
        return Ok(false);
    }
    table.nodes.push(place, parts)?;
    table.counts[left as usize] += 1;
    Ok(true)
}

/// Puts a pair whose sum has a number with its node behind the others, where it is new, and says
/// whether it is.
pub fn note_known<T: Exact + Hash + Drop>(
    table: &mut Table<T>,
    place: u64,
    parts: Parts,
    left: u64,
    sum: u64,
) -> Result<bool, NoMemory>
    requires numbered { AreNumbered table.old.sums.keys table.old.entries.keys }
    requires below { IsTrue (parts_below (length table.old.nodes.nodes.items) parts) }
    requires left { left < length table.old.counts.items }
    requires counted { get_or table.old.counts.items left 0 ≤ length table.old.entries.keys }
    ensures { IfOk result
        (λ is_new. (s : T) → slice_get table.old.sums.keys sum ≡ Some s
        → Notes table.old table.new place parts left s is_new) }
{
    let _sums = count(&table.sums);
    let entry = Entry {
        nonterminal: left,
        sum,
    };
    let (_, is_new) = number(&mut table.entries, entry)?;
    let _entries = count(&table.entries);
    if !is_new {
        return Ok(false);
    }
    table.nodes.push(place, parts)?;
    table.counts[left as usize] += 1;
    Ok(true)
}
