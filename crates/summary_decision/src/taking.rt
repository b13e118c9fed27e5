//! Taking up a pair: it meets the pairs that are taken up, at the productions in which its
//! nonterminal stands.

ghost use Rattle.std.specs.Prelude.{◌≡◌, ◌<◌, ◌≤◌, ℕ, Some, slice_get, IfErr, OnOk, length};
ghost use Rattle.cfg_grammar.specs.declared.production.Right as plain;
ghost use Rattle.cfg_grammar.specs.declared.production.Production as productions;
ghost use Rattle.summary_decision.specs.Tables.{known, IsTable, AreNumbered};
ghost use Rattle.summary_decision.specs.Halts.{Explains};
ghost use Rattle.summary_decision.specs.Joints.{StandsOn, taken_count, AreTaken, AreUses, IsAt, Gives};
ghost use Rattle.summary_decision.specs.Taking.{Takes, AreUp};

use crate::using::Uses;
use crate::{
    Halt, Joint, Question, Side, Table, Taken, add_known, meet, other, sum_number, sum_of_pair,
};
use cfg_grammar::{Right, Symbol};
use derivations::{Part, Parts};
use numbered_sets::Chains;
use std::hash::Hash;
use tag_sums::Summary;
use text_base::Exact;

/// What a pair gives at a production in which its nonterminal stands alone.
fn take_alone<S: Summary>(
    question: &Question<S>,
    table: &mut Table<S::Sum>,
    joint: Joint,
    sum: &S::Sum,
    taken: &Taken,
    symbol: Symbol,
) -> Result<(), Halt>
    requires table { IsTable (S.sum_of question.now.summary.now)
        (S.composed question.now.summary.now)
        (S.is_whole question.now.summary.now) question.now.grammar.now.productions.items
        question.now.grammar.now.start question.now.grammar.now.count table.old }
    requires at { IsAt (S.sum_of question.now.summary.now) (S.composed question.now.summary.now)
        (S.is_whole question.now.summary.now) question.now.grammar.now.productions.items
        question.now.grammar.now.start table.old joint sum.now }
    requires right { (p : productions.Production)
        → slice_get question.now.grammar.now.productions.items joint.place ≡ Some p → p.right
        ≡ plain.Right.One symbol }
    ensures ok { OnOk result
        (Gives (S.sum_of question.now.summary.now) (S.composed question.now.summary.now)
        (S.is_whole question.now.summary.now) question.now.grammar.now.productions.items
        question.now.grammar.now.start question.now.grammar.now.count table.old table.new joint.side
        sum.now (taken_count taken.now) (λ k. k ≡ joint.place)) }
    ensures err { IfErr result (λ h. Explains (S.sum_of question.now.summary.now)
        (S.is_whole question.now.summary.now) (S.tag_count question.now.summary.now)
        question.now.grammar.now.productions.items question.now.grammar.now.start question.now.limit
        table.new.nodes.nodes.items table.new.height h) }
{
    let _ = sum;
    match joint.side {
        Side::First => {
            let number = sum_number(table, joint.pair);
            let parts = Parts::One(Part::Inner(joint.pair as u64));
            add_known(question, table, joint.place, parts, number)
        }
        Side::Second => Ok(()),
    }
}

/// What a pair gives at a production with two symbols on the right.
fn take_beside<S: Summary>(
    question: &Question<S>,
    table: &mut Table<S::Sum>,
    joint: Joint,
    sum: &S::Sum,
    taken: &Taken,
    first: Symbol,
    second: Symbol,
) -> Result<(), Halt>
    requires table { IsTable (S.sum_of question.now.summary.now)
        (S.composed question.now.summary.now)
        (S.is_whole question.now.summary.now) question.now.grammar.now.productions.items
        question.now.grammar.now.start question.now.grammar.now.count table.old }
    requires at { IsAt (S.sum_of question.now.summary.now) (S.composed question.now.summary.now)
        (S.is_whole question.now.summary.now) question.now.grammar.now.productions.items
        question.now.grammar.now.start table.old joint sum.now }
    requires right { (p : productions.Production)
        → slice_get question.now.grammar.now.productions.items joint.place ≡ Some p → p.right
        ≡ plain.Right.Two first second }
    requires taken { AreTaken (known table.old) taken.now }
    requires spread { length taken.now.chains.last.items ≡ question.now.grammar.now.count }
    requires within { taken_count taken.now ≤ table.old.bound }
    ensures ok { OnOk result
        (Gives (S.sum_of question.now.summary.now) (S.composed question.now.summary.now)
        (S.is_whole question.now.summary.now) question.now.grammar.now.productions.items
        question.now.grammar.now.start question.now.grammar.now.count table.old table.new joint.side
        sum.now (taken_count taken.now) (λ k. k ≡ joint.place)) }
    ensures err { IfErr result (λ h. Explains (S.sum_of question.now.summary.now)
        (S.is_whole question.now.summary.now) (S.tag_count question.now.summary.now)
        question.now.grammar.now.productions.items question.now.grammar.now.start question.now.limit
        table.new.nodes.nodes.items table.new.height h) }
{
    meet(
        question,
        table,
        joint,
        sum,
        other(joint.side, first, second),
        taken,
    )
}

/// What a pair gives at a production.
fn take_at<S: Summary>(
    question: &Question<S>,
    table: &mut Table<S::Sum>,
    joint: Joint,
    sum: &S::Sum,
    taken: &Taken,
) -> Result<(), Halt>
    requires table { IsTable (S.sum_of question.now.summary.now)
        (S.composed question.now.summary.now)
        (S.is_whole question.now.summary.now) question.now.grammar.now.productions.items
        question.now.grammar.now.start question.now.grammar.now.count table.old }
    requires at { IsAt (S.sum_of question.now.summary.now) (S.composed question.now.summary.now)
        (S.is_whole question.now.summary.now) question.now.grammar.now.productions.items
        question.now.grammar.now.start table.old joint sum.now }
    requires taken { AreTaken (known table.old) taken.now }
    requires spread { length taken.now.chains.last.items ≡ question.now.grammar.now.count }
    requires within { taken_count taken.now ≤ table.old.bound }
    ensures ok { OnOk result
        (Gives (S.sum_of question.now.summary.now) (S.composed question.now.summary.now)
        (S.is_whole question.now.summary.now) question.now.grammar.now.productions.items
        question.now.grammar.now.start question.now.grammar.now.count table.old table.new joint.side
        sum.now (taken_count taken.now) (λ k. k ≡ joint.place)) }
    ensures err { IfErr result (λ h. Explains (S.sum_of question.now.summary.now)
        (S.is_whole question.now.summary.now) (S.tag_count question.now.summary.now)
        question.now.grammar.now.productions.items question.now.grammar.now.start question.now.limit
        table.new.nodes.nodes.items table.new.height h) }
{
    match question.grammar.productions[joint.place].right {
        Right::Empty => Ok(()),
        Right::One(symbol) => take_alone(question, table, joint, sum, taken, symbol),
        Right::Two(first, second) => take_beside(question, table, joint, sum, taken, first, second),
    }
}

/// What a pair gives at the productions in which its nonterminal stands on a side.
fn take_side<S: Summary>(
    question: &Question<S>,
    table: &mut Table<S::Sum>,
    side: Side,
    pair: usize,
    nonterminal: u64,
    sum: &S::Sum,
    taken: &Taken,
    uses: &Chains,
) -> Result<(), Halt>
    requires table { IsTable (S.sum_of question.now.summary.now)
        (S.composed question.now.summary.now)
        (S.is_whole question.now.summary.now) question.now.grammar.now.productions.items
        question.now.grammar.now.start question.now.grammar.now.count table.old }
    requires here { slice_get (known table.old) pair ≡ Some (nonterminal, sum.now) }
    requires before { pair < table.old.bound }
    requires below { nonterminal < question.now.grammar.now.count }
    requires uses { AreUses side question.now.grammar.now.productions.items
        question.now.grammar.now.start question.now.grammar.now.count uses.now }
    requires taken { AreTaken (known table.old) taken.now }
    requires spread { length taken.now.chains.last.items ≡ question.now.grammar.now.count }
    requires within { taken_count taken.now ≤ table.old.bound }
    ensures ok { OnOk result
        (Gives (S.sum_of question.now.summary.now) (S.composed question.now.summary.now)
        (S.is_whole question.now.summary.now) question.now.grammar.now.productions.items
        question.now.grammar.now.start question.now.grammar.now.count table.old table.new side
        sum.now (taken_count taken.now)
        (λ k. StandsOn side question.now.grammar.now.productions.items
        question.now.grammar.now.start nonterminal k)) }
    ensures err { IfErr result (λ h. Explains (S.sum_of question.now.summary.now)
        (S.is_whole question.now.summary.now) (S.tag_count question.now.summary.now)
        question.now.grammar.now.productions.items question.now.grammar.now.start question.now.limit
        table.new.nodes.nodes.items table.new.height h) }
{
    let mut place = uses.last_place(nonterminal);
    while let Some(before) = uses.place_before(place) {
        let joint = Joint { place, side, pair };
        take_at(question, table, joint, sum, taken)?;
        place = before;
    }
    Ok(())
}

/// The nonterminal of a pair.
fn nonterminal_of<T: Exact + Hash + Drop>(table: &Table<T>, pair: usize) -> u64
    requires numbered { AreNumbered table.now.sums.keys table.now.entries.keys }
    requires within { pair < length (known table.now) }
    ensures { (x : ℕ × T) → slice_get (known table.now) pair ≡ Some x → result ≡ x.0 }
{
    let Some(entry) = table.entries.get_index(pair) else {
        unreachable!()
    };
    entry.nonterminal
}

/// Takes up the next pair.
pub fn take<S: Summary>(
    question: &Question<S>,
    table: &mut Table<S::Sum>,
    uses: &Uses,
    taken: &mut Taken,
) -> Result<(), Halt>
    requires up { AreUp (S.sum_of question.now.summary.now) (S.composed question.now.summary.now)
        (S.is_whole question.now.summary.now) question.now.grammar.now.productions.items
        question.now.grammar.now.start question.now.grammar.now.count table.old taken.old }
    requires more { taken_count taken.old < table.old.bound }
    requires firsts { AreUses Side.First question.now.grammar.now.productions.items
        question.now.grammar.now.start question.now.grammar.now.count uses.now.firsts }
    requires seconds { AreUses Side.Second question.now.grammar.now.productions.items
        question.now.grammar.now.start question.now.grammar.now.count uses.now.seconds }
    ensures ok { OnOk result
        (Takes (S.sum_of question.now.summary.now) (S.composed question.now.summary.now)
        (S.is_whole question.now.summary.now) question.now.grammar.now.productions.items
        question.now.grammar.now.start question.now.grammar.now.count table.old table.new taken.old
        taken.new) }
    ensures err { IfErr result (λ h. Explains (S.sum_of question.now.summary.now)
        (S.is_whole question.now.summary.now) (S.tag_count question.now.summary.now)
        question.now.grammar.now.productions.items question.now.grammar.now.start question.now.limit
        table.new.nodes.nodes.items table.new.height h) }
{
    let pair = taken.count();
    let nonterminal = nonterminal_of(table, pair);
    let sum = question
        .summary
        .copy(question.alloc, sum_of_pair(table, pair))?;
    let seconds = &uses.seconds;
    take_side(
        question,
        table,
        Side::Second,
        pair,
        nonterminal,
        &sum,
        taken,
        seconds,
    )?;
    taken.chains.push(nonterminal)?;
    let firsts = &uses.firsts;
    take_side(
        question,
        table,
        Side::First,
        pair,
        nonterminal,
        &sum,
        taken,
        firsts,
    )?;
    Ok(())
}
