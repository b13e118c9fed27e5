//! Nodes: expressions and lists of members whose parts are numbers of other nodes.

ghost use Rattle.derivatives.specs.Exactness.{exact_node};

use text_base::Exact;

/// A node. The last two are lists of members.
#[derive(Clone, Copy, PartialEq, Eq, Hash)]
pub enum Node {
    Nothing,
    Empty,
    Range(u8, u8),
    Chain(usize, usize),
    Either(usize, usize),
    Star(usize),
    Among(usize),
    NoMore,
    Member(usize, bool, usize),
}

impl Exact for Node {
    ghost exact = { exact_node };
}
