//! From height to height, until nothing is new.

ghost use Rattle.std.specs.Prelude.{◌≡◌, ◌↔◌, ◌<◌, ◌≤◌, [], IfErr, OnOk, length};
ghost use Rattle.text_base.specs.declared.numbers.Nt as nt;
ghost use Rattle.useful_nonterminals.specs.Follows.{IsMarked};
ghost use Rattle.useful_nonterminals.specs.Useful.{IsUseful};
ghost use Rattle.numbered_sets.specs.Chains.{AreChains};
ghost use Rattle.summary_decision.specs.Pairs.{AreWhole};
ghost use Rattle.summary_decision.specs.Tables.{IsTable};
ghost use Rattle.summary_decision.specs.Halts.{Explains};
ghost use Rattle.summary_decision.specs.Joints.{AreUses};
ghost use Rattle.summary_decision.specs.Taking.{AreUp};
ghost use Rattle.summary_decision.specs.Running.{raised};

use crate::{Halt, Question, Side, Table, Taken, Uses, begin, take};
use numbered_sets::count;
use std::hash::Hash;
use tag_sums::Summary;
use text_base::Exact;

/// Goes on to the next height where all pairs before the bound are taken up.
fn raise<T: Exact + Hash + Drop>(table: &mut Table<T>, taken: usize)
    requires within { taken < length table.old.entries.keys }
    requires raised { table.old.height ≤ table.old.bound }
    ensures { table.new ≡ raised taken table.old }
{
    if taken < table.bound {
        return;
    }
    let end = count(&table.entries);
    table.height += 1;
    table.bound = end;
}

/// Takes up all pairs, in the order in which they are found.
fn run<S: Summary>(
    question: &Question<S>,
    table: &mut Table<S::Sum>,
    uses: &Uses,
    taken: &mut Taken,
) -> Result<(), Halt>
    requires up { AreUp (S.sum_of question.now.summary.now) (S.composed question.now.summary.now)
        (S.is_whole question.now.summary.now) question.now.grammar.now.productions.items
        question.now.grammar.now.start question.now.grammar.now.count table.old taken.old }
    requires firsts { AreUses Side.First question.now.grammar.now.productions.items
        question.now.grammar.now.start question.now.grammar.now.count uses.now.firsts }
    requires seconds { AreUses Side.Second question.now.grammar.now.productions.items
        question.now.grammar.now.start question.now.grammar.now.count uses.now.seconds }
    ensures ok { OnOk result
        (AreWhole (S.sum_of question.now.summary.now) (S.is_whole question.now.summary.now)
        question.now.grammar.now.productions.items question.now.grammar.now.start) }
    ensures err { IfErr result (λ h. Explains (S.sum_of question.now.summary.now)
        (S.is_whole question.now.summary.now) (S.tag_count question.now.summary.now)
        question.now.grammar.now.productions.items question.now.grammar.now.start question.now.limit
        table.new.nodes.nodes.items table.new.height h) }
{
    while taken.count() < count(&table.entries) {
        raise(table, taken.count());
        take(question, table, uses, taken)?;
    }
    Ok(())
}

/// Finds all pairs, beginning with those that letters make.
pub(crate) fn work<S: Summary>(
    question: &Question<S>,
    table: &mut Table<S::Sum>,
    uses: &Uses,
    useful: &[bool],
    taken: &mut Taken,
) -> Result<(), Halt>
    requires table { IsTable (S.sum_of question.now.summary.now)
        (S.composed question.now.summary.now)
        (S.is_whole question.now.summary.now) question.now.grammar.now.productions.items
        question.now.grammar.now.start question.now.grammar.now.count table.old }
    requires useful { (a : nt.Nt)
        → IsMarked useful.now a.0 ↔ IsUseful question.now.grammar.now.productions.items
        question.now.grammar.now.start a }
    requires none { AreChains [] taken.old.chains.last.items taken.old.chains.before.items }
    requires spread { length taken.old.chains.last.items ≡ question.now.grammar.now.count }
    requires firsts { AreUses Side.First question.now.grammar.now.productions.items
        question.now.grammar.now.start question.now.grammar.now.count uses.now.firsts }
    requires seconds { AreUses Side.Second question.now.grammar.now.productions.items
        question.now.grammar.now.start question.now.grammar.now.count uses.now.seconds }
    ensures ok { OnOk result
        (AreWhole (S.sum_of question.now.summary.now) (S.is_whole question.now.summary.now)
        question.now.grammar.now.productions.items question.now.grammar.now.start) }
    ensures err { IfErr result (λ h. Explains (S.sum_of question.now.summary.now)
        (S.is_whole question.now.summary.now) (S.tag_count question.now.summary.now)
        question.now.grammar.now.productions.items question.now.grammar.now.start question.now.limit
        table.new.nodes.nodes.items table.new.height h) }
{
    begin(question, table, useful)?;
    run(question, table, uses, taken)
}
