//! What a pair that is taken up gives at productions.

ghost use Rattle.std.specs.Prelude.{◌≡◌, ℕ, ◌<◌, ◌≤◌, Some, slice_get, OnOk, length};
ghost use Rattle.cfg_grammar.specs.declared.production.Production as productions;
ghost use Rattle.cfg_grammar.specs.declared.production.Right as plain;
ghost use Rattle.summary_decision.specs.declared.joint.Side.{Side};
ghost use Rattle.summary_decision.specs.Joints.{StandsOn, AreUses};
ghost use Rattle.short_sentences.specs.Tables.{known, IsTable};
ghost use Rattle.short_sentences.specs.Joints.{chained, length_at, AreTaken, IsAt, Gives};

use crate::step::Step;
use crate::table::Table;
use cfg_grammar::{Right, Symbol};
use derivations::{Part, Parts};
use numbered_sets::Chains;
use summary_decision::{Joint, Side, other};
use tag_sums::Summary;
use text_base::NoMemory;

impl<S: Summary> Step<'_, '_, S> {
    /// What a pair gives at a production in which its nonterminal stands alone.
    fn give_alone(
        &self,
        table: &mut Table<S::Sum>,
        joint: Joint,
        sum: &S::Sum,
        symbol: Symbol,
    ) -> Result<(), NoMemory>
        requires table { IsTable (S.sum_of self.now.question.now.summary.now) (S.composed
            self.now.question.now.summary.now) (S.is_whole self.now.question.now.summary.now)
            self.now.question.now.grammar.now.productions.items
            self.now.question.now.grammar.now.start self.now.question.now.grammar.now.count
            table.old self.now.taken.now }
        requires at { IsAt (S.sum_of self.now.question.now.summary.now) (S.composed
            self.now.question.now.summary.now) (S.is_whole self.now.question.now.summary.now)
            self.now.question.now.grammar.now.productions.items
            self.now.question.now.grammar.now.start table.old self.now.taken.now joint sum.now }
        requires right { (p : productions.Production) → slice_get
            self.now.question.now.grammar.now.productions.items joint.place ≡ Some p → p.right ≡
            plain.Right.One symbol }
        ensures { OnOk result (Gives (S.sum_of self.now.question.now.summary.now) (S.composed
            self.now.question.now.summary.now) (S.is_whole self.now.question.now.summary.now)
            self.now.question.now.grammar.now.productions.items
            self.now.question.now.grammar.now.start self.now.question.now.grammar.now.count
            self.now.taken.now table.old table.new joint.side sum.now joint.pair (chained
            self.now.chains.now) (λ k. k ≡ joint.place)) }
    {
        let _ = sum;
        let _ = symbol;
        match joint.side {
            Side::First => {
                let number = self.taken.entries[joint.pair].sum;
                let parts = Parts::One(Part::Inner(joint.pair as u64));
                self.add_known(table, joint.place, parts, number)
            }
            Side::Second => Ok(()),
        }
    }

    /// What a pair gives at a production with two symbols on the right.
    fn give_beside(
        &self,
        table: &mut Table<S::Sum>,
        joint: Joint,
        sum: &S::Sum,
        first: Symbol,
        second: Symbol,
    ) -> Result<(), NoMemory>
        requires table { IsTable (S.sum_of self.now.question.now.summary.now) (S.composed
            self.now.question.now.summary.now) (S.is_whole self.now.question.now.summary.now)
            self.now.question.now.grammar.now.productions.items
            self.now.question.now.grammar.now.start self.now.question.now.grammar.now.count
            table.old self.now.taken.now }
        requires at { IsAt (S.sum_of self.now.question.now.summary.now) (S.composed
            self.now.question.now.summary.now) (S.is_whole self.now.question.now.summary.now)
            self.now.question.now.grammar.now.productions.items
            self.now.question.now.grammar.now.start table.old self.now.taken.now joint sum.now }
        requires right { (p : productions.Production) → slice_get
            self.now.question.now.grammar.now.productions.items joint.place ≡ Some p → p.right ≡
            plain.Right.Two first second }
        requires taken { AreTaken (known table.old self.now.taken.now) self.now.chains.now }
        requires spread { length self.now.chains.now.last.items ≡
            self.now.question.now.grammar.now.count }
        ensures { OnOk result (Gives (S.sum_of self.now.question.now.summary.now) (S.composed
            self.now.question.now.summary.now) (S.is_whole self.now.question.now.summary.now)
            self.now.question.now.grammar.now.productions.items
            self.now.question.now.grammar.now.start self.now.question.now.grammar.now.count
            self.now.taken.now table.old table.new joint.side sum.now joint.pair (chained
            self.now.chains.now) (λ k. k ≡ joint.place)) }
    {
        self.meet(table, joint, sum, other(joint.side, first, second))
    }

    /// What a pair gives at a production.
    fn give_at(&self, table: &mut Table<S::Sum>, joint: Joint, sum: &S::Sum) -> Result<(), NoMemory>
        requires table { IsTable (S.sum_of self.now.question.now.summary.now) (S.composed
            self.now.question.now.summary.now) (S.is_whole self.now.question.now.summary.now)
            self.now.question.now.grammar.now.productions.items
            self.now.question.now.grammar.now.start self.now.question.now.grammar.now.count
            table.old self.now.taken.now }
        requires at { IsAt (S.sum_of self.now.question.now.summary.now) (S.composed
            self.now.question.now.summary.now) (S.is_whole self.now.question.now.summary.now)
            self.now.question.now.grammar.now.productions.items
            self.now.question.now.grammar.now.start table.old self.now.taken.now joint sum.now }
        requires taken { AreTaken (known table.old self.now.taken.now) self.now.chains.now }
        requires spread { length self.now.chains.now.last.items ≡
            self.now.question.now.grammar.now.count }
        ensures { OnOk result (Gives (S.sum_of self.now.question.now.summary.now) (S.composed
            self.now.question.now.summary.now) (S.is_whole self.now.question.now.summary.now)
            self.now.question.now.grammar.now.productions.items
            self.now.question.now.grammar.now.start self.now.question.now.grammar.now.count
            self.now.taken.now table.old table.new joint.side sum.now joint.pair (chained
            self.now.chains.now) (λ k. k ≡ joint.place)) }
    {
        match self.question.grammar.productions[joint.place].right {
            Right::Empty => Ok(()),
            Right::One(symbol) => self.give_alone(table, joint, sum, symbol),
            Right::Two(first, second) => self.give_beside(table, joint, sum, first, second),
        }
    }

    /// The places of productions in which nonterminals stand on a side.
    fn uses(&self, side: Side) -> &Chains
        requires firsts { AreUses Side.First self.now.question.now.grammar.now.productions.items
            self.now.question.now.grammar.now.start self.now.question.now.grammar.now.count
            self.now.uses.now.firsts }
        requires seconds { AreUses Side.Second self.now.question.now.grammar.now.productions.items
            self.now.question.now.grammar.now.start self.now.question.now.grammar.now.count
            self.now.uses.now.seconds }
        ensures { AreUses side self.now.question.now.grammar.now.productions.items
            self.now.question.now.grammar.now.start self.now.question.now.grammar.now.count
            result.now }
    {
        match side {
            Side::First => &self.uses.firsts,
            Side::Second => &self.uses.seconds,
        }
    }

    /// What a pair gives at the productions in which its nonterminal stands on a side.
    pub(crate) fn give_side(
        &self,
        table: &mut Table<S::Sum>,
        side: Side,
        pair: usize,
        sum: &S::Sum,
    ) -> Result<(), NoMemory>
        requires table { IsTable (S.sum_of self.now.question.now.summary.now) (S.composed
            self.now.question.now.summary.now) (S.is_whole self.now.question.now.summary.now)
            self.now.question.now.grammar.now.productions.items
            self.now.question.now.grammar.now.start self.now.question.now.grammar.now.count
            table.old self.now.taken.now }
        requires here { (a : ℕ) × (slice_get (known table.old self.now.taken.now) pair ≡ Some (
          a,
          sum.now,
        )) }
        requires late { self.now.taken.now.length ≤ length_at self.now.taken.now pair }
        requires firsts { AreUses Side.First self.now.question.now.grammar.now.productions.items
            self.now.question.now.grammar.now.start self.now.question.now.grammar.now.count
            self.now.uses.now.firsts }
        requires seconds { AreUses Side.Second self.now.question.now.grammar.now.productions.items
            self.now.question.now.grammar.now.start self.now.question.now.grammar.now.count
            self.now.uses.now.seconds }
        requires taken { AreTaken (known table.old self.now.taken.now) self.now.chains.now }
        requires spread { length self.now.chains.now.last.items ≡
            self.now.question.now.grammar.now.count }
        ensures { OnOk result ((a : ℕ) → slice_get (known table.old self.now.taken.now) pair ≡
            Some (a, sum.now) → Gives (S.sum_of self.now.question.now.summary.now) (S.composed
            self.now.question.now.summary.now) (S.is_whole self.now.question.now.summary.now)
            self.now.question.now.grammar.now.productions.items
            self.now.question.now.grammar.now.start self.now.question.now.grammar.now.count
            self.now.taken.now table.old table.new side sum.now pair (chained self.now.chains.now)
            (λ k. StandsOn side self.now.question.now.grammar.now.productions.items
            self.now.question.now.grammar.now.start a k)) }
    {
        let uses = self.uses(side);
        let nonterminal = self.taken.entries[pair].nonterminal;
        let mut place = uses.last_place(nonterminal);
        while let Some(before) = uses.place_before(place) {
            let joint = Joint { place, side, pair };
            self.give_at(table, joint, sum)?;
            place = before;
        }
        Ok(())
    }
}
