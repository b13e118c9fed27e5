//! A pair that is taken up meets others at a production.

ghost use Rattle.std.specs.Prelude.{◌≡◌, ℕ, ◌≤◌, ◌<◌, Some, slice_get, Contains, IfErr, IfOk, OnOk, length};
ghost use Rattle.text_base.specs.declared.numbers.Nt as nt;
ghost use Rattle.cfg_grammar.specs.declared.symbol.Symbol as symbols;
ghost use Rattle.summary_decision.specs.Tables.{known, IsTable, MakesAt, Adds, AreNumbered};
ghost use Rattle.summary_decision.specs.Halts.{Explains};
ghost use Rattle.summary_decision.specs.Joints.{composed_by, parts_by, IsBeside, IsPartner, AreTaken, taken_count, MeetsPairs, MeetsSymbol};

use crate::adding::{add, add_known};
use crate::halt::Halt;
use crate::joining::{join, sum_number};
use crate::joint::{Joint, Side, join_on, parts};
use crate::letters::letter;
use crate::question::Question;
use crate::table::{Table, Taken};
use cfg_grammar::Symbol;
use derivations::Part;
use std::hash::Hash;
use tag_sums::Summary;
use text_base::{Exact, NoMemory, Nt};

/// The sum of a pair.
pub fn sum_of_pair<T: Exact + Hash + Drop>(table: &Table<T>, pair: usize) -> &T
    requires numbered { AreNumbered table.now.sums.keys table.now.entries.keys }
    requires within { pair < length (known table.now) }
    ensures { (x : ℕ × T) → slice_get (known table.now) pair ≡ Some x → result.now ≡ x.1 }
{
    let Some(entry) = table.entries.get_index(pair) else {
        unreachable!()
    };
    let Some(sum) = table.sums.get_index(entry.sum as usize) else {
        unreachable!()
    };
    sum
}

/// The composition of two sums, of which the first named stands on the side.
pub fn compose<S: Summary>(
    question: &Question<S>,
    side: Side,
    own: &S::Sum,
    other: &S::Sum,
) -> Result<S::Sum, NoMemory>
    ensures { IfOk result
        (λ s. s ≡ composed_by (S.composed question.now.summary.now) side own.now other.now) }
{
    match side {
        Side::First => {
            let sum = question.summary.compose(question.alloc, own, other)?;
            Ok(sum)
        }
        Side::Second => {
            let sum = question.summary.compose(question.alloc, other, own)?;
            Ok(sum)
        }
    }
}

/// The pair meets a pair of the nonterminal on the other side.
fn meet_pair<S: Summary>(
    question: &Question<S>,
    table: &mut Table<S::Sum>,
    joint: Joint,
    sum: &S::Sum,
    partner: Nt,
    pair: usize,
) -> Result<(), Halt>
    requires table { IsTable (S.sum_of question.now.summary.now)
        (S.composed question.now.summary.now)
        (S.is_whole question.now.summary.now) question.now.grammar.now.productions.items
        question.now.grammar.now.start question.now.grammar.now.count table.old }
    requires beside { IsBeside (S.sum_of question.now.summary.now)
        (S.composed question.now.summary.now)
        (S.is_whole question.now.summary.now) question.now.grammar.now.productions.items
        question.now.grammar.now.start table.old joint sum.now (symbols.Symbol.Nt partner) }
    requires partner { IsPartner (S.sum_of question.now.summary.now)
        (S.composed question.now.summary.now)
        (S.is_whole question.now.summary.now) question.now.grammar.now.productions.items
        question.now.grammar.now.start table.old partner.0 pair }
    ensures ok { OnOk result
        (MeetsPairs (S.sum_of question.now.summary.now) (S.composed question.now.summary.now)
        (S.is_whole question.now.summary.now) question.now.grammar.now.productions.items
        question.now.grammar.now.start question.now.grammar.now.count table.old table.new joint
        sum.now partner.0
        (λ j. j ≡ pair)) }
    ensures err { IfErr result (λ h. Explains (S.sum_of question.now.summary.now)
        (S.is_whole question.now.summary.now) (S.tag_count question.now.summary.now)
        question.now.grammar.now.productions.items question.now.grammar.now.start question.now.limit
        table.new.nodes.nodes.items table.new.height h) }
{
    let _ = sum;
    let first = sum_number(table, joint.pair);
    let second = sum_number(table, pair);
    let joined = join(question, table, join_on(joint.side, first, second))?;
    let own = Part::Inner(joint.pair as u64);
    let other = Part::Inner(pair as u64);
    add_known(
        question,
        table,
        joint.place,
        parts(joint.side, own, other),
        joined,
    )
}

/// The pair meets the pairs that are taken up of the nonterminal on the other side.
fn meet_pairs<S: Summary>(
    question: &Question<S>,
    table: &mut Table<S::Sum>,
    joint: Joint,
    sum: &S::Sum,
    partner: Nt,
    taken: &Taken,
) -> Result<(), Halt>
    requires table { IsTable (S.sum_of question.now.summary.now)
        (S.composed question.now.summary.now)
        (S.is_whole question.now.summary.now) question.now.grammar.now.productions.items
        question.now.grammar.now.start question.now.grammar.now.count table.old }
    requires beside { IsBeside (S.sum_of question.now.summary.now)
        (S.composed question.now.summary.now)
        (S.is_whole question.now.summary.now) question.now.grammar.now.productions.items
        question.now.grammar.now.start table.old joint sum.now (symbols.Symbol.Nt partner) }
    requires partner { partner.0 < length taken.now.chains.last.items }
    requires taken { AreTaken (known table.old) taken.now }
    requires within { taken_count taken.now ≤ table.old.bound }
    ensures ok { OnOk result
        (MeetsSymbol (S.sum_of question.now.summary.now) (S.composed question.now.summary.now)
        (S.is_whole question.now.summary.now) question.now.grammar.now.productions.items
        question.now.grammar.now.start question.now.grammar.now.count table.old table.new joint
        sum.now (taken_count taken.now) (symbols.Symbol.Nt partner)) }
    ensures err { IfErr result (λ h. Explains (S.sum_of question.now.summary.now)
        (S.is_whole question.now.summary.now) (S.tag_count question.now.summary.now)
        question.now.grammar.now.productions.items question.now.grammar.now.start question.now.limit
        table.new.nodes.nodes.items table.new.height h) }
{
    let mut place = taken.chains.last_place(partner.0);
    while let Some(before) = taken.chains.place_before(place) {
        meet_pair(question, table, joint, sum, partner, place)?;
        place = before;
    }
    Ok(())
}

/// The pair meets the letter on the other side.
fn meet_letter<S: Summary>(
    question: &Question<S>,
    table: &mut Table<S::Sum>,
    joint: Joint,
    sum: &S::Sum,
    symbol: Symbol,
) -> Result<(), Halt>
    requires table { IsTable (S.sum_of question.now.summary.now)
        (S.composed question.now.summary.now)
        (S.is_whole question.now.summary.now) question.now.grammar.now.productions.items
        question.now.grammar.now.start question.now.grammar.now.count table.old }
    requires beside { IsBeside (S.sum_of question.now.summary.now)
        (S.composed question.now.summary.now)
        (S.is_whole question.now.summary.now) question.now.grammar.now.productions.items
        question.now.grammar.now.start table.old joint sum.now symbol }
    requires letter { (a : nt.Nt) → symbol ≡ symbols.Symbol.Nt a → ⊥ }
    ensures ok { OnOk result
        ((n : ℕ) → MeetsSymbol (S.sum_of question.now.summary.now) (S.composed question.now.summary.now)
        (S.is_whole question.now.summary.now) question.now.grammar.now.productions.items
        question.now.grammar.now.start question.now.grammar.now.count table.old table.new joint
        sum.now n symbol) }
    ensures err { IfErr result (λ h. Explains (S.sum_of question.now.summary.now)
        (S.is_whole question.now.summary.now) (S.tag_count question.now.summary.now)
        question.now.grammar.now.productions.items question.now.grammar.now.start question.now.limit
        table.new.nodes.nodes.items table.new.height h) }
{
    let Some(piece) = letter(question, symbol)? else {
        unreachable!()
    };
    let joined = compose(question, joint.side, sum, &piece.sum)?;
    let own = Part::Inner(joint.pair as u64);
    add(
        question,
        table,
        joint.place,
        parts(joint.side, own, piece.part),
        joined,
    )
}

/// The pair meets what is taken up of the symbol on the other side.
pub fn meet<S: Summary>(
    question: &Question<S>,
    table: &mut Table<S::Sum>,
    joint: Joint,
    sum: &S::Sum,
    symbol: Symbol,
    taken: &Taken,
) -> Result<(), Halt>
    requires table { IsTable (S.sum_of question.now.summary.now)
        (S.composed question.now.summary.now)
        (S.is_whole question.now.summary.now) question.now.grammar.now.productions.items
        question.now.grammar.now.start question.now.grammar.now.count table.old }
    requires beside { IsBeside (S.sum_of question.now.summary.now)
        (S.composed question.now.summary.now)
        (S.is_whole question.now.summary.now) question.now.grammar.now.productions.items
        question.now.grammar.now.start table.old joint sum.now symbol }
    requires taken { AreTaken (known table.old) taken.now }
    requires spread { length taken.now.chains.last.items ≡ question.now.grammar.now.count }
    requires within { taken_count taken.now ≤ table.old.bound }
    ensures ok { OnOk result
        (MeetsSymbol (S.sum_of question.now.summary.now) (S.composed question.now.summary.now)
        (S.is_whole question.now.summary.now) question.now.grammar.now.productions.items
        question.now.grammar.now.start question.now.grammar.now.count table.old table.new joint
        sum.now (taken_count taken.now) symbol) }
    ensures err { IfErr result (λ h. Explains (S.sum_of question.now.summary.now)
        (S.is_whole question.now.summary.now) (S.tag_count question.now.summary.now)
        question.now.grammar.now.productions.items question.now.grammar.now.start question.now.limit
        table.new.nodes.nodes.items table.new.height h) }
{
    let Symbol::Nt(partner) = symbol else {
        return meet_letter(question, table, joint, sum, symbol);
    };
    meet_pairs(question, table, joint, sum, partner, taken)
}
