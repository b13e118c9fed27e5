//! What is still to come of an expression: parts, one behind another.

ghost use Rattle.partial_derivatives.specs.PartExactness.{exact_member, exact_part};

use crate::row::Row;
use text_base::Exact;

/// A member of an `among`: the number of its expression, and whether it is required.
#[derive(Clone, Copy, Debug, PartialEq, Eq, Hash)]
pub struct Member {
    pub place: usize,
    pub required: bool,
}

impl Exact for Member {
    ghost exact = { exact_member };
}

/// A part that is still to come.
#[derive(Debug, PartialEq, Eq, Hash, Drop)]
pub enum Part {
    /// The expression with this number.
    Whole(usize),
    /// Some of these members, in any order, those that are required among them.
    Among(Row<Member>),
}

impl Exact for Part {
    ghost exact = { exact_part };
}
