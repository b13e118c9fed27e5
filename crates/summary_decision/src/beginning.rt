//! The pairs of productions in which no nonterminal stands on the right.

ghost use Rattle.std.specs.Prelude.{◌≡◌, ◌↔◌, ◌<◌, Some, slice_get, IfOk, IfErr, OnOk, length};
ghost use Rattle.text_base.specs.declared.numbers.Nt as nt;
ghost use Rattle.useful_nonterminals.specs.Follows.{IsMarked};
ghost use Rattle.useful_nonterminals.specs.Useful.{IsUseful};
ghost use Rattle.summary_decision.specs.Tables.{IsTable};
ghost use Rattle.summary_decision.specs.Halts.{Explains};
ghost use Rattle.summary_decision.specs.Beginning.{IsMadeOf, Begins, StandsAt};

use crate::using::is_marked;
use crate::{Halt, Question, Side, Table, add, compose, letter};
use cfg_grammar::{Production, Right};
use derivations::Parts;
use tag_sums::Summary;
use text_base::NoMemory;

/// The parts that letters on the right make, with their sum. None where a nonterminal stands there.
fn made_of<S: Summary>(
    question: &Question<S>,
    right: Right,
) -> Result<Option<(Parts, S::Sum)>, NoMemory>
    ensures { IfOk result
        (IsMadeOf (S.sum_of question.now.summary.now) (S.composed question.now.summary.now)
        (S.is_whole question.now.summary.now) question.now.grammar.now.productions.items
        question.now.grammar.now.start right) }
{
    match right {
        Right::Empty => {
            let sum = question.summary.unit(question.alloc)?;
            Ok(Some((Parts::Empty, sum)))
        }
        Right::One(symbol) => match letter(question, symbol)? {
            Some(piece) => Ok(Some((Parts::One(piece.part), piece.sum))),
            None => Ok(None),
        },
        Right::Two(first, second) => {
            let Some(left) = letter(question, first)? else {
                return Ok(None);
            };
            let Some(right) = letter(question, second)? else {
                return Ok(None);
            };
            let sum = compose(question, Side::First, &left.sum, &right.sum)?;
            Ok(Some((Parts::Two(left.part, right.part), sum)))
        }
    }
}

/// Adds the pair of a production in which no nonterminal stands on the right.
fn begin_at<S: Summary>(
    question: &Question<S>,
    table: &mut Table<S::Sum>,
    place: usize,
    right: Right,
) -> Result<(), Halt>
    requires table { IsTable (S.sum_of question.now.summary.now)
        (S.composed question.now.summary.now)
        (S.is_whole question.now.summary.now) question.now.grammar.now.productions.items
        question.now.grammar.now.start question.now.grammar.now.count table.old }
    requires stands { StandsAt question.now.grammar.now.productions.items
        question.now.grammar.now.start place right }
    ensures ok { OnOk result
        (Begins (S.sum_of question.now.summary.now) (S.composed question.now.summary.now)
        (S.is_whole question.now.summary.now) question.now.grammar.now.productions.items
        question.now.grammar.now.start question.now.grammar.now.count table.old table.new
        (λ k. k ≡ place)) }
    ensures err { IfErr result (λ h. Explains (S.sum_of question.now.summary.now)
        (S.is_whole question.now.summary.now) (S.tag_count question.now.summary.now)
        question.now.grammar.now.productions.items question.now.grammar.now.start question.now.limit
        table.new.nodes.nodes.items table.new.height h) }
{
    let Some((parts, sum)) = made_of(question, right)? else {
        return Ok(());
    };
    add(question, table, place, parts, sum)
}

/// The same, where the left side is useful.
fn begin_useful<S: Summary>(
    question: &Question<S>,
    table: &mut Table<S::Sum>,
    useful: &[bool],
    place: usize,
    production: Production,
) -> Result<(), Halt>
    requires table { IsTable (S.sum_of question.now.summary.now)
        (S.composed question.now.summary.now)
        (S.is_whole question.now.summary.now) question.now.grammar.now.productions.items
        question.now.grammar.now.start question.now.grammar.now.count table.old }
    requires placed { slice_get question.now.grammar.now.productions.items place ≡ Some production }
    requires useful { (a : nt.Nt)
        → IsMarked useful.now a.0 ↔ IsUseful question.now.grammar.now.productions.items
        question.now.grammar.now.start a }
    ensures ok { OnOk result
        (Begins (S.sum_of question.now.summary.now) (S.composed question.now.summary.now)
        (S.is_whole question.now.summary.now) question.now.grammar.now.productions.items
        question.now.grammar.now.start question.now.grammar.now.count table.old table.new
        (λ k. k ≡ place)) }
    ensures err { IfErr result (λ h. Explains (S.sum_of question.now.summary.now)
        (S.is_whole question.now.summary.now) (S.tag_count question.now.summary.now)
        question.now.grammar.now.productions.items question.now.grammar.now.start question.now.limit
        table.new.nodes.nodes.items table.new.height h) }
{
    if !is_marked(useful, production.left.0) {
        return Ok(());
    }
    begin_at(question, table, place, production.right)
}

/// Adds the pairs of the productions with useful left sides in which no nonterminal stands on the
/// right.
pub fn begin<S: Summary>(
    question: &Question<S>,
    table: &mut Table<S::Sum>,
    useful: &[bool],
) -> Result<(), Halt>
    requires table { IsTable (S.sum_of question.now.summary.now)
        (S.composed question.now.summary.now)
        (S.is_whole question.now.summary.now) question.now.grammar.now.productions.items
        question.now.grammar.now.start question.now.grammar.now.count table.old }
    requires useful { (a : nt.Nt)
        → IsMarked useful.now a.0 ↔ IsUseful question.now.grammar.now.productions.items
        question.now.grammar.now.start a }
    ensures ok { OnOk result
        (Begins (S.sum_of question.now.summary.now) (S.composed question.now.summary.now)
        (S.is_whole question.now.summary.now) question.now.grammar.now.productions.items
        question.now.grammar.now.start question.now.grammar.now.count table.old table.new
        (λ k. k < length question.now.grammar.now.productions.items)) }
    ensures err { IfErr result (λ h. Explains (S.sum_of question.now.summary.now)
        (S.is_whole question.now.summary.now) (S.tag_count question.now.summary.now)
        question.now.grammar.now.productions.items question.now.grammar.now.start question.now.limit
        table.new.nodes.nodes.items table.new.height h) }
{
    for (place, production) in question.grammar.productions.iter().enumerate() {
        begin_useful(question, table, useful, place, *production)?;
    }
    Ok(())
}
