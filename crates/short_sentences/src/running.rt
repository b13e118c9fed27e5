//! Taking up all pairs, in the order of their lengths.

ghost use Rattle.std.specs.Prelude.{◌≡◌, ◌↔◌, ◌+◌, [], IfErr, OnOk, length};
ghost use Rattle.text_base.specs.declared.numbers.Nt as nt;
ghost use Rattle.useful_nonterminals.specs.Follows.{IsMarked};
ghost use Rattle.useful_nonterminals.specs.Useful.{IsUseful};
ghost use Rattle.numbered_sets.specs.Chains.{AreChains};
ghost use Rattle.summary_decision.specs.declared.joint.Side.{Side};
ghost use Rattle.summary_decision.specs.Pairs.{AreWhole};
ghost use Rattle.summary_decision.specs.Joints.{AreUses};
ghost use Rattle.short_sentences.specs.Tables.{IsTable};
ghost use Rattle.short_sentences.specs.Taking.{AreUp, AreUpButLast};
ghost use Rattle.short_sentences.specs.Halts.{Explains};

use crate::drawing::next;
use crate::step::Step;
use crate::table::Table;
use crate::taken::Taken;
use crate::taking::take;
use numbered_sets::Chains;
use summary_decision::{Halt, Question, Side, Uses};
use tag_sums::Summary;
use text_base::NoMemory;

/// What the last pair gives.
fn give<S: Summary>(
    question: &Question<S>,
    uses: &Uses,
    table: &mut Table<S::Sum>,
    taken: &Taken,
    chains: &mut Chains,
) -> Result<(), NoMemory>
    requires up { AreUpButLast (S.sum_of question.now.summary.now) (S.composed
        question.now.summary.now) (S.is_whole question.now.summary.now)
        question.now.grammar.now.productions.items question.now.grammar.now.start
        question.now.grammar.now.count table.old taken.now chains.old }
    requires firsts { AreUses Side.First question.now.grammar.now.productions.items
        question.now.grammar.now.start question.now.grammar.now.count uses.now.firsts }
    requires seconds { AreUses Side.Second question.now.grammar.now.productions.items
        question.now.grammar.now.start question.now.grammar.now.count uses.now.seconds }
    ensures { OnOk result (AreUp (S.sum_of question.now.summary.now) (S.composed
        question.now.summary.now) (S.is_whole question.now.summary.now)
        question.now.grammar.now.productions.items question.now.grammar.now.start
        question.now.grammar.now.count table.new taken.now chains.new) }
{
    let pair = chains.before.len();
    let entry = taken.entries[pair];
    let sum = question
        .summary
        .copy(question.alloc, table.sums.at(entry.sum))?;
    let before = Step {
        question: &*question,
        uses: &*uses,
        taken: &*taken,
        chains: &*chains,
    };
    before.give_side(table, Side::Second, pair, &sum)?;
    chains.push(entry.nonterminal)?;
    let behind = Step {
        question: &*question,
        uses: &*uses,
        taken: &*taken,
        chains: &*chains,
    };
    behind.give_side(table, Side::First, pair, &sum)
}

/// Takes up all pairs, of which none is left that is shorter.
fn run<S: Summary>(
    question: &Question<S>,
    uses: &Uses,
    table: &mut Table<S::Sum>,
    taken: &mut Taken,
    chains: &mut Chains,
) -> Result<(), Halt>
    requires up { AreUp (S.sum_of question.now.summary.now) (S.composed question.now.summary.now)
        (S.is_whole question.now.summary.now) question.now.grammar.now.productions.items
        question.now.grammar.now.start question.now.grammar.now.count table.old taken.old
        chains.old }
    requires firsts { AreUses Side.First question.now.grammar.now.productions.items
        question.now.grammar.now.start question.now.grammar.now.count uses.now.firsts }
    requires seconds { AreUses Side.Second question.now.grammar.now.productions.items
        question.now.grammar.now.start question.now.grammar.now.count uses.now.seconds }
    ensures ok { OnOk result (AreWhole (S.sum_of question.now.summary.now) (S.is_whole
        question.now.summary.now) question.now.grammar.now.productions.items
        question.now.grammar.now.start) }
    ensures err { IfErr result (λ h. Explains (S.sum_of question.now.summary.now) (S.is_whole
        question.now.summary.now) (S.tag_count question.now.summary.now)
        question.now.grammar.now.productions.items question.now.grammar.now.start
        question.now.limit taken.new.nodes.nodes.items taken.new.length h) }
{
    while let Some(place) = next(&mut table.queue, table.drafts.as_slice()) {
        take(question, table, taken, chains, place)?;
        give(question, uses, table, taken, chains)?;
    }
    Ok(())
}

/// Finds all pairs, beginning with those that letters make.
pub(crate) fn work<S: Summary>(
    question: &Question<S>,
    uses: &Uses,
    useful: &[bool],
    table: &mut Table<S::Sum>,
    taken: &mut Taken,
    chains: &mut Chains,
) -> Result<(), Halt>
    requires table { IsTable (S.sum_of question.now.summary.now) (S.composed
        question.now.summary.now) (S.is_whole question.now.summary.now)
        question.now.grammar.now.productions.items question.now.grammar.now.start
        question.now.grammar.now.count table.old taken.old }
    requires useful { (a : nt.Nt) → IsMarked useful.now a.0 ↔ IsUseful
        question.now.grammar.now.productions.items question.now.grammar.now.start a }
    requires none { taken.old.entries.items ≡ [] }
    requires first { taken.old.length ≡ 0 }
    requires chains { AreChains [] chains.old.last.items chains.old.before.items }
    requires spread { length chains.old.last.items ≡ question.now.grammar.now.count }
    requires firsts { AreUses Side.First question.now.grammar.now.productions.items
        question.now.grammar.now.start question.now.grammar.now.count uses.now.firsts }
    requires seconds { AreUses Side.Second question.now.grammar.now.productions.items
        question.now.grammar.now.start question.now.grammar.now.count uses.now.seconds }
    ensures ok { OnOk result (AreWhole (S.sum_of question.now.summary.now) (S.is_whole
        question.now.summary.now) question.now.grammar.now.productions.items
        question.now.grammar.now.start) }
    ensures err { IfErr result (λ h. Explains (S.sum_of question.now.summary.now) (S.is_whole
        question.now.summary.now) (S.tag_count question.now.summary.now)
        question.now.grammar.now.productions.items question.now.grammar.now.start
        question.now.limit taken.new.nodes.nodes.items taken.new.length h) }
{
    let step = Step {
        question: &*question,
        uses: &*uses,
        taken: &*taken,
        chains: &*chains,
    };
    step.begin(table, useful)?;
    run(question, uses, table, taken, chains)
}
