//! A pair that is taken up meets others at a production.

ghost use Rattle.std.specs.Prelude.{◌≡◌, ℕ, ◌<◌, ◌≤◌, Some, slice_get, OnOk, length};
ghost use Rattle.text_base.specs.declared.numbers.Nt as nt;
ghost use Rattle.cfg_grammar.specs.declared.symbol.Symbol as symbols;
ghost use Rattle.short_sentences.specs.Tables.{known, IsTable};
ghost use Rattle.short_sentences.specs.Joints.{
  chained,
  AreTaken,
  IsBeside,
  IsPartner,
  MeetsPairs,
  MeetsSymbol,
};

use crate::joining::{join, join_on};
use crate::step::Step;
use crate::table::Table;
use cfg_grammar::Symbol;
use derivations::Part;
use summary_decision::{Joint, compose, letter, parts};
use tag_sums::Summary;
use text_base::{NoMemory, Nt};

impl<S: Summary> Step<'_, '_, S> {
    /// The pair meets a pair of the nonterminal on the other side.
    fn meet_pair(
        &self,
        table: &mut Table<S::Sum>,
        joint: Joint,
        sum: &S::Sum,
        partner: Nt,
        pair: usize,
    ) -> Result<(), NoMemory>
        requires table { IsTable (S.sum_of self.now.question.now.summary.now) (S.composed
            self.now.question.now.summary.now) (S.is_whole self.now.question.now.summary.now)
            self.now.question.now.grammar.now.productions.items
            self.now.question.now.grammar.now.start self.now.question.now.grammar.now.count
            table.old self.now.taken.now }
        requires beside { IsBeside (S.sum_of self.now.question.now.summary.now) (S.composed
            self.now.question.now.summary.now) (S.is_whole self.now.question.now.summary.now)
            self.now.question.now.grammar.now.productions.items
            self.now.question.now.grammar.now.start table.old self.now.taken.now joint sum.now
            (symbols.Symbol.Nt partner) }
        requires partner { IsPartner (S.sum_of self.now.question.now.summary.now) (S.composed
            self.now.question.now.summary.now) (S.is_whole self.now.question.now.summary.now)
            self.now.question.now.grammar.now.productions.items
            self.now.question.now.grammar.now.start table.old self.now.taken.now partner.0 pair }
        ensures { OnOk result (MeetsPairs (S.sum_of self.now.question.now.summary.now) (S.composed
            self.now.question.now.summary.now) (S.is_whole self.now.question.now.summary.now)
            self.now.question.now.grammar.now.productions.items
            self.now.question.now.grammar.now.start self.now.question.now.grammar.now.count
            self.now.taken.now table.old table.new joint sum.now partner.0 (λ j. j ≡ pair)) }
    {
        let _ = sum;
        let own = self.taken.entries[joint.pair].sum;
        let other = self.taken.entries[pair].sum;
        let number = join(
            self.question,
            &mut table.sums,
            join_on(joint.side, own, other),
        )?;
        let parts = parts(
            joint.side,
            Part::Inner(joint.pair as u64),
            Part::Inner(pair as u64),
        );
        self.add_known(table, joint.place, parts, number)
    }

    /// The pair meets the pairs on the chain of the nonterminal on the other side.
    fn meet_pairs(
        &self,
        table: &mut Table<S::Sum>,
        joint: Joint,
        sum: &S::Sum,
        partner: Nt,
    ) -> Result<(), NoMemory>
        requires table { IsTable (S.sum_of self.now.question.now.summary.now) (S.composed
            self.now.question.now.summary.now) (S.is_whole self.now.question.now.summary.now)
            self.now.question.now.grammar.now.productions.items
            self.now.question.now.grammar.now.start self.now.question.now.grammar.now.count
            table.old self.now.taken.now }
        requires beside { IsBeside (S.sum_of self.now.question.now.summary.now) (S.composed
            self.now.question.now.summary.now) (S.is_whole self.now.question.now.summary.now)
            self.now.question.now.grammar.now.productions.items
            self.now.question.now.grammar.now.start table.old self.now.taken.now joint sum.now
            (symbols.Symbol.Nt partner) }
        requires partner { partner.0 < length self.now.chains.now.last.items }
        requires taken { AreTaken (known table.old self.now.taken.now) self.now.chains.now }
        ensures { OnOk result (MeetsSymbol (S.sum_of self.now.question.now.summary.now)
            (S.composed self.now.question.now.summary.now) (S.is_whole
            self.now.question.now.summary.now) self.now.question.now.grammar.now.productions.items
            self.now.question.now.grammar.now.start self.now.question.now.grammar.now.count
            self.now.taken.now table.old table.new joint sum.now (chained self.now.chains.now)
            (symbols.Symbol.Nt partner)) }
    {
        let mut place = self.chains.last_place(partner.0);
        while let Some(before) = self.chains.place_before(place) {
            self.meet_pair(table, joint, sum, partner, place)?;
            place = before;
        }
        Ok(())
    }

    /// The pair meets the letter on the other side.
    fn meet_letter(
        &self,
        table: &mut Table<S::Sum>,
        joint: Joint,
        sum: &S::Sum,
        symbol: Symbol,
    ) -> Result<(), NoMemory>
        requires table { IsTable (S.sum_of self.now.question.now.summary.now) (S.composed
            self.now.question.now.summary.now) (S.is_whole self.now.question.now.summary.now)
            self.now.question.now.grammar.now.productions.items
            self.now.question.now.grammar.now.start self.now.question.now.grammar.now.count
            table.old self.now.taken.now }
        requires beside { IsBeside (S.sum_of self.now.question.now.summary.now) (S.composed
            self.now.question.now.summary.now) (S.is_whole self.now.question.now.summary.now)
            self.now.question.now.grammar.now.productions.items
            self.now.question.now.grammar.now.start table.old self.now.taken.now joint sum.now
            symbol }
        requires letter { (a : nt.Nt) → symbol ≡ symbols.Symbol.Nt a → ⊥ }
        ensures { OnOk result ((n : ℕ) → MeetsSymbol (S.sum_of self.now.question.now.summary.now)
            (S.composed self.now.question.now.summary.now) (S.is_whole
            self.now.question.now.summary.now) self.now.question.now.grammar.now.productions.items
            self.now.question.now.grammar.now.start self.now.question.now.grammar.now.count
            self.now.taken.now table.old table.new joint sum.now n symbol) }
    {
        let Some(piece) = letter(self.question, symbol)? else {
            unreachable!()
        };
        let joined = compose(self.question, joint.side, sum, &piece.sum)?;
        let parts = parts(joint.side, Part::Inner(joint.pair as u64), piece.part);
        self.add(table, joint.place, parts, joined)
    }

    /// The pair meets what is taken up of the symbol on the other side.
    pub(crate) fn meet(
        &self,
        table: &mut Table<S::Sum>,
        joint: Joint,
        sum: &S::Sum,
        symbol: Symbol,
    ) -> Result<(), NoMemory>
        requires table { IsTable (S.sum_of self.now.question.now.summary.now) (S.composed
            self.now.question.now.summary.now) (S.is_whole self.now.question.now.summary.now)
            self.now.question.now.grammar.now.productions.items
            self.now.question.now.grammar.now.start self.now.question.now.grammar.now.count
            table.old self.now.taken.now }
        requires beside { IsBeside (S.sum_of self.now.question.now.summary.now) (S.composed
            self.now.question.now.summary.now) (S.is_whole self.now.question.now.summary.now)
            self.now.question.now.grammar.now.productions.items
            self.now.question.now.grammar.now.start table.old self.now.taken.now joint sum.now
            symbol }
        requires taken { AreTaken (known table.old self.now.taken.now) self.now.chains.now }
        requires spread { length self.now.chains.now.last.items ≡
            self.now.question.now.grammar.now.count }
        ensures { OnOk result (MeetsSymbol (S.sum_of self.now.question.now.summary.now)
            (S.composed self.now.question.now.summary.now) (S.is_whole
            self.now.question.now.summary.now) self.now.question.now.grammar.now.productions.items
            self.now.question.now.grammar.now.start self.now.question.now.grammar.now.count
            self.now.taken.now table.old table.new joint sum.now (chained self.now.chains.now)
            symbol) }
    {
        let Symbol::Nt(partner) = symbol else {
            return self.meet_letter(table, joint, sum, symbol);
        };
        self.meet_pairs(table, joint, sum, partner)
    }
}
