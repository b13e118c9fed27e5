//! The type of lists of nodes.

ghost use Rattle.derivations.specs.Lawful.{AreLawful};

use crate::node::Node;

/// Nodes, each behind those that it names. The type keeps that, and the lengths of sentences. A
/// node may be named more than once.
#[derive(Debug, Drop)]
pub struct Nodes {
    pub(crate) nodes: Vec<Node>,
    ghost lawful: { AreLawful nodes.items },
}
