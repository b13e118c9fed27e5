//! Taking up a pair.

ghost use Rattle.std.specs.Prelude.{◌≡◌, ◌↔◌, ◌≤◌, ◌<◌, ◌+◌, true, false, Some, slice_get, get_or, length, IsTrue, IfErr, OnOk};
ghost use Rattle.derivations.specs.Nodes.{parts_below};
ghost use Rattle.short_sentences.specs.declared.table.Draft.{Draft};
ghost use Rattle.summary_decision.specs.Halts.{Judges};
ghost use Rattle.short_sentences.specs.Taking.{WereUp, AreUpButLast, IsNext, Settles};
ghost use Rattle.short_sentences.specs.Halts.{Explains};

use crate::table::{Draft, Table};
use crate::taken::Taken;
use numbered_sets::{Chains, count};
use summary_decision::{Entry, Halt, Question, TAG_LIMIT};
use tag_sums::Summary;
use text_base::NoMemory;

/// Whether a pair is of the start and not whole.
fn is_wrong(left: u64, start: u64, is_whole: bool) -> bool
    ensures { IsTrue result ↔ ((left ≡ start) × (is_whole ≡ false)) }
{
    left == start && !is_whole
}

/// Whether a pair that is taken up ends the work.
fn judge(is_wrong: bool, tags: u64, count: u64, limit: u64) -> Result<(), Halt>
    ensures ok { OnOk result (is_wrong ≡ false) }
    ensures err { IfErr result (λ h. Judges is_wrong tags count limit h) }
{
    if is_wrong {
        return Err(Halt::NotWhole);
    }
    if tags > TAG_LIMIT {
        return Err(Halt::TooLong(tags));
    }
    if count > limit {
        return Err(Halt::TooMany(count));
    }
    Ok(())
}

/// Puts the draft at a place behind the nodes, and its pair behind those that are taken up.
fn settle(
    drafts: &mut Vec<Draft>,
    taken: &mut Taken,
    place: usize,
    entry: Entry,
) -> Result<(), NoMemory>
    requires below { (d : Draft) → slice_get drafts.old.items place ≡ Some d → IsTrue (parts_below
        (length taken.old.nodes.nodes.items) d.parts) }
    requires within { place < length drafts.old.items }
    requires left { entry.nonterminal < length taken.old.counts.items }
    requires counted { get_or taken.old.counts.items entry.nonterminal 0 ≤ length
        taken.old.entries.items }
    ensures { OnOk result ((d : Draft) → slice_get drafts.old.items place ≡ Some d → Settles
        drafts.old.items drafts.new.items taken.old taken.new place entry d) }
{
    let draft = drafts[place];
    taken.nodes.push(draft.production, draft.parts)?;
    taken.entries.push(entry)?;
    taken.counts[entry.nonterminal as usize] += 1;
    taken.length = draft.length;
    drafts[place] = Draft {
        is_taken: true,
        ..draft
    };
    Ok(())
}

/// Takes up the pair at a place. Ends the work where it is of the start and not whole, or passes
/// a limit.
pub(crate) fn take<S: Summary>(
    question: &Question<S>,
    table: &mut Table<S::Sum>,
    taken: &mut Taken,
    chains: &Chains,
    place: usize,
) -> Result<(), Halt>
    requires up { WereUp (S.sum_of question.now.summary.now) (S.composed question.now.summary.now)
        (S.is_whole question.now.summary.now) question.now.grammar.now.productions.items
        question.now.grammar.now.start question.now.grammar.now.count table.old taken.old
        chains.now }
    requires is_next { IsNext table.old.drafts.items table.old.queue place }
    ensures ok { OnOk result (AreUpButLast (S.sum_of question.now.summary.now) (S.composed
        question.now.summary.now) (S.is_whole question.now.summary.now)
        question.now.grammar.now.productions.items question.now.grammar.now.start
        question.now.grammar.now.count table.new taken.new chains.now) }
    ensures one_more { OnOk result (length taken.new.entries.items ≡ length
        taken.old.entries.items + 1) }
    ensures err { IfErr result (λ h. Explains (S.sum_of question.now.summary.now) (S.is_whole
        question.now.summary.now) (S.tag_count question.now.summary.now)
        question.now.grammar.now.productions.items question.now.grammar.now.start
        question.now.limit taken.new.nodes.nodes.items taken.new.length h) }
{
    let _ = chains;
    let Some(entry) = table.found.get_index(place) else {
        unreachable!()
    };
    let entry = *entry;
    let _found = count(&table.found);
    let _sums = count(&table.sums.numbered);
    let sum = table.sums.at(entry.sum);
    let is_wrong = is_wrong(
        entry.nonterminal,
        question.grammar.start.0,
        question.summary.whole(sum),
    );
    let tags = question.summary.tags(sum);
    settle(&mut table.drafts, taken, place, entry)?;
    let sums = taken.counts[entry.nonterminal as usize];
    judge(is_wrong, tags, sums, question.limit)
}
