//! The lengths of parts of derivations.

ghost use Rattle.std.specs.Prelude.{◌≡◌};
ghost use Rattle.derivations.specs.Nodes as spec;

use derivations::{Node, Part, Parts};

/// The number of bytes of the sentence of a part, at most the largest `u64`.
fn part_length(nodes: &[Node], part: Part) -> u64
    ensures { result ≡ spec.part_length nodes.now part }
{
    match part {
        Part::Byte(_) => 1,
        Part::Token(_) => 0,
        Part::Inner(node) => match nodes.get(node as usize) {
            Some(node) => node.length,
            None => 0,
        },
    }
}

/// The number of bytes of the sentences of parts in turn, at most the largest `u64`.
pub(crate) fn parts_length(nodes: &[Node], parts: Parts) -> u64
    ensures { result ≡ spec.parts_length nodes.now parts }
{
    match parts {
        Parts::Empty => 0,
        Parts::One(a) => part_length(nodes, a),
        Parts::Two(a, b) => part_length(nodes, a).saturating_add(part_length(nodes, b)),
    }
}
