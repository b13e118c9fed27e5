//! The pairs of productions in which no nonterminal stands on the right.

ghost use Rattle.std.specs.Prelude.{◌≡◌, ◌↔◌, ◌<◌, false, Some, slice_get, get_or, IfOk, OnOk, length};
ghost use Rattle.text_base.specs.declared.numbers.Nt as nt;
ghost use Rattle.useful_nonterminals.specs.Follows.{IsMarked};
ghost use Rattle.useful_nonterminals.specs.Useful.{IsUseful};
ghost use Rattle.summary_decision.specs.Beginning.{StandsAt};
ghost use Rattle.short_sentences.specs.Tables.{IsTable};
ghost use Rattle.short_sentences.specs.Beginning.{IsMadeOf, Begins};

use crate::step::Step;
use crate::table::Table;
use cfg_grammar::{Production, Right};
use derivations::Parts;
use summary_decision::{Question, Side, compose, letter};
use tag_sums::Summary;
use text_base::NoMemory;

impl<S: Summary> Step<'_, '_, S> {
    /// The parts that letters on the right make, with their sum. None where a nonterminal stands
    /// there.
    fn made_of(&self, right: Right) -> Result<Option<(Parts, S::Sum)>, NoMemory>
        ensures { IfOk result (IsMadeOf (S.sum_of self.now.question.now.summary.now) (S.composed
            self.now.question.now.summary.now) (S.is_whole self.now.question.now.summary.now)
            self.now.question.now.grammar.now.productions.items
            self.now.question.now.grammar.now.start right) }
    {
        match right {
            Right::Empty => {
                let sum = self.question.summary.unit(self.question.alloc)?;
                Ok(Some((Parts::Empty, sum)))
            }
            Right::One(symbol) => match letter(self.question, symbol)? {
                Some(piece) => Ok(Some((Parts::One(piece.part), piece.sum))),
                None => Ok(None),
            },
            Right::Two(first, second) => {
                let Some(left) = letter(self.question, first)? else {
                    return Ok(None);
                };
                let Some(right) = letter(self.question, second)? else {
                    return Ok(None);
                };
                let sum = compose(self.question, Side::First, &left.sum, &right.sum)?;
                Ok(Some((Parts::Two(left.part, right.part), sum)))
            }
        }
    }

    /// Adds the pair of a production in which no nonterminal stands on the right.
    fn begin_at(
        &self,
        table: &mut Table<S::Sum>,
        place: usize,
        right: Right,
    ) -> Result<(), NoMemory>
        requires table { IsTable (S.sum_of self.now.question.now.summary.now) (S.composed
            self.now.question.now.summary.now) (S.is_whole self.now.question.now.summary.now)
            self.now.question.now.grammar.now.productions.items
            self.now.question.now.grammar.now.start self.now.question.now.grammar.now.count
            table.old self.now.taken.now }
        requires stands { StandsAt self.now.question.now.grammar.now.productions.items
            self.now.question.now.grammar.now.start place right }
        requires none { self.now.taken.now.length ≡ 0 }
        ensures { OnOk result (Begins (S.sum_of self.now.question.now.summary.now) (S.composed
            self.now.question.now.summary.now) (S.is_whole self.now.question.now.summary.now)
            self.now.question.now.grammar.now.productions.items
            self.now.question.now.grammar.now.start self.now.question.now.grammar.now.count
            self.now.taken.now table.old table.new (λ k. k ≡ place)) }
    {
        let Some((parts, sum)) = self.made_of(right)? else {
            return Ok(());
        };
        self.add(table, place, parts, sum)
    }

    /// The same, where the left side is useful.
    fn begin_useful(
        &self,
        table: &mut Table<S::Sum>,
        useful: &[bool],
        place: usize,
        production: Production,
    ) -> Result<(), NoMemory>
        requires table { IsTable (S.sum_of self.now.question.now.summary.now) (S.composed
            self.now.question.now.summary.now) (S.is_whole self.now.question.now.summary.now)
            self.now.question.now.grammar.now.productions.items
            self.now.question.now.grammar.now.start self.now.question.now.grammar.now.count
            table.old self.now.taken.now }
        requires placed { slice_get self.now.question.now.grammar.now.productions.items place ≡
            Some production }
        requires useful { (a : nt.Nt) → IsMarked useful.now a.0 ↔ IsUseful
            self.now.question.now.grammar.now.productions.items
            self.now.question.now.grammar.now.start a }
        requires none { self.now.taken.now.length ≡ 0 }
        ensures { OnOk result (Begins (S.sum_of self.now.question.now.summary.now) (S.composed
            self.now.question.now.summary.now) (S.is_whole self.now.question.now.summary.now)
            self.now.question.now.grammar.now.productions.items
            self.now.question.now.grammar.now.start self.now.question.now.grammar.now.count
            self.now.taken.now table.old table.new (λ k. k ≡ place)) }
    {
        if !is_marked(useful, production.left.0) {
            return Ok(());
        }
        self.begin_at(table, place, production.right)
    }

    /// Adds the pairs of the productions with useful left sides in which no nonterminal stands on
    /// the right.
    pub(crate) fn begin(&self, table: &mut Table<S::Sum>, useful: &[bool]) -> Result<(), NoMemory>
        requires table { IsTable (S.sum_of self.now.question.now.summary.now) (S.composed
            self.now.question.now.summary.now) (S.is_whole self.now.question.now.summary.now)
            self.now.question.now.grammar.now.productions.items
            self.now.question.now.grammar.now.start self.now.question.now.grammar.now.count
            table.old self.now.taken.now }
        requires useful { (a : nt.Nt) → IsMarked useful.now a.0 ↔ IsUseful
            self.now.question.now.grammar.now.productions.items
            self.now.question.now.grammar.now.start a }
        requires none { self.now.taken.now.length ≡ 0 }
        ensures { OnOk result (Begins (S.sum_of self.now.question.now.summary.now) (S.composed
            self.now.question.now.summary.now) (S.is_whole self.now.question.now.summary.now)
            self.now.question.now.grammar.now.productions.items
            self.now.question.now.grammar.now.start self.now.question.now.grammar.now.count
            self.now.taken.now table.old table.new (λ k. k < length
            self.now.question.now.grammar.now.productions.items)) }
    {
        for (place, production) in self.question.grammar.productions.iter().enumerate() {
            self.begin_useful(table, useful, place, *production)?;
        }
        Ok(())
    }
}

/// Whether a number is marked.
fn is_marked(marks: &[bool], n: u64) -> bool
    ensures { result ≡ get_or marks.now n false }
{
    match marks.get(n as usize) {
        Some(mark) => *mark,
        None => false,
    }
}
