//! The arena.

ghost use Rattle.derivatives.specs.Nodes.{IsBuilt, built-prop};

use crate::node::Node;
use indexmap::IndexSet;

/// Expressions, each once, by numbers. The parts of a node lie below it.
#[derive(Drop)]
pub struct Arena {
    pub(crate) nodes: IndexSet<Node>,
    ghost built: { IsBuilt nodes.keys } by { built-prop nodes.keys },
}
