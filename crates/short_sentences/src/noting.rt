//! Noting drafts of pairs.

ghost use Rattle.std.specs.Prelude.{◌≡◌, length, OnOk};
ghost use Rattle.short_sentences.specs.Notes.{Notes};

use crate::table::{Draft, Table};
use numbered_sets::{count, number};
use std::hash::Hash;
use summary_decision::Entry;
use text_base::{Exact, NoMemory};

/// Puts a draft of a pair behind the others, where the pair is new, or in the place of the one
/// before, where that is longer. In logarithmic time.
pub(crate) fn note<T: Exact + Hash + Drop>(
    table: &mut Table<T>,
    entry: Entry,
    draft: Draft,
) -> Result<(), NoMemory>
    requires { length table.old.drafts.items ≡ length table.old.found.keys }
    ensures notes { OnOk result (Notes entry draft table.old.found.keys table.new.found.keys
        table.old.drafts.items table.new.drafts.items table.old.queue table.new.queue) }
    ensures sums { table.new.sums ≡ table.old.sums }
{
    let (place, is_new) = number(&mut table.found, entry)?;
    let _count = count(&table.found);
    if is_new {
        table.drafts.push(draft)?;
        table.queue.put(draft.length, place)?;
        return Ok(());
    }
    if table.drafts[place].length <= draft.length {
        return Ok(());
    }
    table.drafts[place] = draft;
    table.queue.put(draft.length, place)?;
    Ok(())
}
