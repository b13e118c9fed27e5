//! Where a pair stands in a production.

ghost use Rattle.std.specs.Prelude.{◌≡◌};
ghost use Rattle.summary_decision.specs.Joints.{parts_by, other_by, join_by};

use crate::table::Join;
use cfg_grammar::Symbol;
use derivations::{Part, Parts};

/// The side of a production on which a pair stands.
#[derive(Clone, Copy, Debug, PartialEq, Eq)]
pub enum Side {
    First,
    Second,
}

/// A pair on a side of a production, by their places.
#[derive(Clone, Copy, Debug, PartialEq, Eq)]
pub struct Joint {
    pub place: usize,
    pub side: Side,
    pub pair: usize,
}

/// Two parts, of which the first named stands on the side.
pub fn parts(side: Side, own: Part, other: Part) -> Parts
    ensures { result ≡ parts_by side own other }
{
    match side {
        Side::First => Parts::Two(own, other),
        Side::Second => Parts::Two(other, own),
    }
}

/// Two sums by their numbers, of which the first named stands on the side.
pub fn join_on(side: Side, own: u64, other: u64) -> Join
    ensures { result ≡ join_by side own other }
{
    match side {
        Side::First => Join {
            first: own,
            second: other,
        },
        Side::Second => Join {
            first: other,
            second: own,
        },
    }
}

/// The symbol that does not stand on the side.
pub fn other(side: Side, first: Symbol, second: Symbol) -> Symbol
    ensures { result ≡ other_by side first second }
{
    match side {
        Side::First => second,
        Side::Second => first,
    }
}
