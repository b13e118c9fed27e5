//! Laws of lists of pairs, as functions that do nothing.

ghost use Rattle.summary_decision.specs.Closed.{TakesOne, ClosedIsComplete, ClosedHasAll};

use tag_sums::Summary;

/// What a list of pairs that is closed knows of the sentences of a grammar.
pub fn closed_pairs<S: Summary>(_summary: &S)
    ensures takes_one { TakesOne (S.sum_of _summary.now) (S.composed _summary.now) }
    ensures next { ClosedIsComplete (S.sum_of _summary.now) (S.composed _summary.now) }
    ensures all { ClosedHasAll (S.sum_of _summary.now) (S.composed _summary.now) }
{}
