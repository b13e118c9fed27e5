//! Adding pairs, and when that ends the work.

ghost use Rattle.std.specs.Prelude.{◌≡◌, ◌↔◌, true, false, Some, slice_get, IsTrue, IfErr, OnOk};
ghost use Rattle.summary_decision.specs.Tables.{IsTable, MakesAt, Adds};
ghost use Rattle.summary_decision.specs.Halts.{Judges, Explains};

use crate::halt::Halt;
use crate::joining::sum_at;
use crate::noting::{note, note_known};
use crate::question::Question;
use crate::table::Table;
use crate::verdict::TAG_LIMIT;
use derivations::Parts;
use tag_sums::Summary;

/// Whether the pair is of the start and not whole.
fn is_wrong(left: u64, start: u64, is_whole: bool) -> bool
    ensures { IsTrue result ↔ ((left ≡ start) × (is_whole ≡ false)) }
{
    left == start && !is_whole
}

/// Whether a pair that was added ends the work.
fn judge(is_wrong: bool, tags: u64, count: u64, limit: u64) -> Result<(), Halt>
    ensures ok { OnOk result (is_wrong ≡ false) }
    ensures err { IfErr result (λ h. Judges is_wrong tags count limit h) }
{
    if is_wrong {
        return Err(Halt::NotWhole);
    }
    if tags > TAG_LIMIT {
        return Err(Halt::TooLong(tags));
    }
    if count > limit {
        return Err(Halt::TooMany(count));
    }
    Ok(())
}

/// Adds the pair of the left side of a production and a sum that its parts make. Ends the work
/// where the pair is of the start and not whole, or passes a limit.
pub fn add<S: Summary>(
    question: &Question<S>,
    table: &mut Table<S::Sum>,
    place: usize,
    parts: Parts,
    sum: S::Sum,
) -> Result<(), Halt>
    requires table { IsTable (S.sum_of question.now.summary.now)
        (S.composed question.now.summary.now)
        (S.is_whole question.now.summary.now) question.now.grammar.now.productions.items
        question.now.grammar.now.start question.now.grammar.now.count table.old }
    requires makes { MakesAt (S.sum_of question.now.summary.now)
        (S.composed question.now.summary.now)
        (S.is_whole question.now.summary.now) question.now.grammar.now.productions.items
        question.now.grammar.now.start table.old place parts sum }
    ensures ok { OnOk result
        (Adds (S.sum_of question.now.summary.now) (S.composed question.now.summary.now)
        (S.is_whole question.now.summary.now) question.now.grammar.now.productions.items
        question.now.grammar.now.start question.now.grammar.now.count table.old table.new place sum) }
    ensures err { IfErr result (λ h. Explains (S.sum_of question.now.summary.now)
        (S.is_whole question.now.summary.now) (S.tag_count question.now.summary.now)
        question.now.grammar.now.productions.items question.now.grammar.now.start question.now.limit
        table.new.nodes.nodes.items table.new.height h) }
{
    let left = question.grammar.productions[place].left.0;
    let is_wrong = is_wrong(left, question.grammar.start.0, question.summary.whole(&sum));
    let tags = question.summary.tags(&sum);
    if !note(table, place as u64, parts, left, sum)? {
        return Ok(());
    }
    let count = table.counts[left as usize];
    judge(is_wrong, tags, count, question.limit)
}

/// Adds the pair of the left side of a production and the sum with a number that its parts make.
/// Ends the work where the pair is of the start and not whole, or passes a limit.
pub fn add_known<S: Summary>(
    question: &Question<S>,
    table: &mut Table<S::Sum>,
    place: usize,
    parts: Parts,
    number: u64,
) -> Result<(), Halt>
    requires table { IsTable (S.sum_of question.now.summary.now)
        (S.composed question.now.summary.now)
        (S.is_whole question.now.summary.now) question.now.grammar.now.productions.items
        question.now.grammar.now.start question.now.grammar.now.count table.old }
    requires makes { (s : S.Sum) × (slice_get table.old.sums.keys number ≡ Some s)
        × MakesAt (S.sum_of question.now.summary.now) (S.composed question.now.summary.now)
        (S.is_whole question.now.summary.now) question.now.grammar.now.productions.items
        question.now.grammar.now.start table.old place parts s }
    ensures ok { OnOk result
        ((s : S.Sum) → slice_get table.old.sums.keys number ≡ Some s
        → Adds (S.sum_of question.now.summary.now) (S.composed question.now.summary.now)
        (S.is_whole question.now.summary.now) question.now.grammar.now.productions.items
        question.now.grammar.now.start question.now.grammar.now.count table.old table.new place s) }
    ensures err { IfErr result (λ h. Explains (S.sum_of question.now.summary.now)
        (S.is_whole question.now.summary.now) (S.tag_count question.now.summary.now)
        question.now.grammar.now.productions.items question.now.grammar.now.start question.now.limit
        table.new.nodes.nodes.items table.new.height h) }
{
    let left = question.grammar.productions[place].left.0;
    let sum = sum_at(&table.sums, number);
    let is_wrong = is_wrong(left, question.grammar.start.0, question.summary.whole(sum));
    let tags = question.summary.tags(sum);
    if !note_known(table, place as u64, parts, left, number)? {
        return Ok(());
    }
    let count = table.counts[left as usize];
    judge(is_wrong, tags, count, question.limit)
}
