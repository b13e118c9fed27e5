//! Composing sums by their numbers, each two once.

ghost use Rattle.std.specs.Prelude.{◌≡◌, ◌<◌, ℕ, Some, slice_get, length, IfOk, OnOk};
ghost use Rattle.summary_decision.specs.Tables.{known, IsTable, GoesOn, AreNumbered};

use crate::question::Question;
use crate::table::{Join, Table};
use indexmap::IndexSet;
use numbered_sets::{count, number};
use std::hash::Hash;
use tag_sums::Summary;
use text_base::{Exact, NoMemory};

/// The sum with a number.
pub fn sum_at<T: Exact + Hash + Drop>(sums: &IndexSet<T>, number: u64) -> &T
    requires { number < length sums.now.keys }
    ensures { slice_get sums.now.keys number ≡ Some result.now }
{
    let Some(sum) = sums.get_index(number as usize) else {
        unreachable!()
    };
    sum
}

/// The number of the sum of a pair.
pub fn sum_number<T: Exact + Hash + Drop>(table: &Table<T>, pair: usize) -> u64
    requires numbered { AreNumbered table.now.sums.keys table.now.entries.keys }
    requires within { pair < length (known table.now) }
    ensures sum { (x : ℕ × T) → slice_get (known table.now) pair ≡ Some x
        → slice_get table.now.sums.keys result ≡ Some x.1 }
    ensures below { result < length table.now.sums.keys }
{
    let Some(entry) = table.entries.get_index(pair) else {
        unreachable!()
    };
    entry.sum
}

/// The number of the composition of two sums. They are composed where these two are met first.
pub fn join<S: Summary>(
    question: &Question<S>,
    table: &mut Table<S::Sum>,
    asked: Join,
) -> Result<u64, NoMemory>
    requires table { IsTable (S.sum_of question.now.summary.now)
        (S.composed question.now.summary.now)
        (S.is_whole question.now.summary.now) question.now.grammar.now.productions.items
        question.now.grammar.now.start question.now.grammar.now.count table.old }
    requires first { asked.first < length table.old.sums.keys }
    requires second { asked.second < length table.old.sums.keys }
    ensures goes { OnOk result
        (GoesOn (S.sum_of question.now.summary.now) (S.composed question.now.summary.now)
        (S.is_whole question.now.summary.now) question.now.grammar.now.productions.items
        question.now.grammar.now.start question.now.grammar.now.count table.old table.new) }
    ensures sum { IfOk result
        (λ r. (s : S.Sum) (t : S.Sum) → slice_get table.old.sums.keys asked.first ≡ Some s
        → slice_get table.old.sums.keys asked.second ≡ Some t
        → slice_get table.new.sums.keys r ≡ Some (S.composed question.now.summary.now s t)) }
{
    let (place, is_new) = number(&mut table.joins, asked)?;
    let _joins = count(&table.joins);
    if !is_new {
        return Ok(table.joined[place]);
    }
    let sum = question.summary.compose(
        question.alloc,
        sum_at(&table.sums, asked.first),
        sum_at(&table.sums, asked.second),
    )?;
    let (composition, _) = number(&mut table.sums, sum)?;
    table.joined.push(composition as u64)?;
    Ok(composition as u64)
}
