//! Composing sums by their numbers, each two once.

ghost use Rattle.std.specs.Prelude.{◌≡◌, ◌<◌, ℕ, [], Some, slice_get, length, IfOk, OnOk};
ghost use Rattle.numbered_sets.specs.Numbers.{Keeps};
ghost use Rattle.summary_decision.specs.Joints.{join_by};
ghost use Rattle.summary_decision.specs.Tables.{AreJoins};

use crate::sums::Sums;
use indexmap::IndexSet;
use numbered_sets::{count, number};
use std::alloc::Global;
use std::hash::Hash;
use summary_decision::{Join, Question, Side};
use tag_sums::Summary;
use text_base::{Exact, NoMemory};

impl<T: Exact + Hash + Drop> Sums<T> {
    /// No sums.
    pub(crate) fn new(alloc: Global) -> Sums<T>
        ensures numbered { result.numbered.keys ≡ [] }
        ensures joins { result.joins.keys ≡ [] }
        ensures joined { result.joined.items ≡ [] }
    {
        Sums {
            numbered: IndexSet::new(alloc),
            joins: IndexSet::new(alloc),
            joined: Vec::new(alloc),
        }
    }

    /// The sum with a number.
    pub(crate) fn at(&self, number: u64) -> &T
        requires { number < length self.now.numbered.keys }
        ensures { slice_get self.now.numbered.keys number ≡ Some result.now }
    {
        let Some(sum) = self.numbered.get_index(number as usize) else {
            unreachable!()
        };
        sum
    }

    /// The number of a sum, which is put behind the others where it is new.
    pub(crate) fn number_of(&mut self, sum: T) -> Result<u64, NoMemory>
        ensures sum { IfOk result (λ n. slice_get self.new.numbered.keys n ≡ Some sum) }
        ensures keeps { Keeps self.old.numbered.keys self.new.numbered.keys }
        ensures joins { self.new.joins ≡ self.old.joins }
        ensures joined { self.new.joined ≡ self.old.joined }
    {
        let (place, _) = number(&mut self.numbered, sum)?;
        Ok(place as u64)
    }
}

/// Two sums by their numbers, of which the first named stands on the side.
pub(crate) fn join_on(side: Side, own: u64, other: u64) -> Join
    ensures { result ≡ join_by side own other }
{
    match side {
        Side::First => Join {
            first: own,
            second: other,
        },
        Side::Second => Join {
            first: other,
            second: own,
        },
    }
}

/// The number of the composition of two sums. They are composed where these two are met first.
pub(crate) fn join<S: Summary>(
    question: &Question<S>,
    sums: &mut Sums<S::Sum>,
    asked: Join,
) -> Result<u64, NoMemory>
    requires joins { AreJoins (S.composed question.now.summary.now) sums.old.numbered.keys
        sums.old.joins.keys sums.old.joined.items }
    requires first { asked.first < length sums.old.numbered.keys }
    requires second { asked.second < length sums.old.numbered.keys }
    ensures joins { OnOk result (AreJoins (S.composed question.now.summary.now)
        sums.new.numbered.keys sums.new.joins.keys sums.new.joined.items) }
    ensures keeps { Keeps sums.old.numbered.keys sums.new.numbered.keys }
    ensures sum { IfOk result
        (λ r. (s : S.Sum) (t : S.Sum) → slice_get sums.old.numbered.keys asked.first ≡ Some s
        → slice_get sums.old.numbered.keys asked.second ≡ Some t
        → slice_get sums.new.numbered.keys r ≡ Some (S.composed question.now.summary.now s t)) }
{
    let (place, is_new) = number(&mut sums.joins, asked)?;
    let _joins = count(&sums.joins);
    if !is_new {
        return Ok(sums.joined[place]);
    }
    let sum = question.summary.compose(
        question.alloc,
        sums.at(asked.first),
        sums.at(asked.second),
    )?;
    let composition = sums.number_of(sum)?;
    sums.joined.push(composition)?;
    Ok(composition)
}
