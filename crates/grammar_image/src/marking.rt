//! Which nodes are under the root of a derivation.

ghost use Rattle.std.specs.Prelude.{◌≡◌, ◌<◌, length, IfOk, IsTrue};
ghost use Rattle.derivations.specs.Nodes.{part_below, parts_below};
ghost use Rattle.derivations.specs.Lawful.{AreLawful};
ghost use Rattle.grammar_image.specs.Marks.{mark_part, mark_parts, AreUnderRoot};

use derivations::{Node, Part, Parts};
use std::alloc::Global;
use text_base::NoMemory;

/// Marks a part, if it is a node.
fn mark_part(marks: &mut Vec<bool>, part: Part)
    requires { IsTrue (part_below (length marks.old.items) part) }
    ensures { marks.new.items ≡ mark_part marks.old.items part }
{
    match part {
        Part::Byte(_) => {}
        Part::Token(_) => {}
        Part::Inner(node) => marks[node as usize] = true,
    }
}

/// Marks the parts that are nodes.
fn mark_parts(marks: &mut Vec<bool>, parts: Parts)
    requires { IsTrue (parts_below (length marks.old.items) parts) }
    ensures { marks.new.items ≡ mark_parts marks.old.items parts }
{
    match parts {
        Parts::Empty => {}
        Parts::One(a) => mark_part(marks, a),
        Parts::Two(a, b) => {
            mark_part(marks, a);
            mark_part(marks, b);
        }
    }
}

/// Marks the nodes that are under the last one, and that one.
pub(crate) fn under_root(alloc: Global, nodes: &[Node]) -> Result<Vec<bool>, NoMemory>
    requires lawful { AreLawful nodes.now }
    requires some { 0 < length nodes.now }
    ensures marks { IfOk result (λ marks. AreUnderRoot nodes.now marks.items) }
    ensures all { IfOk result (λ marks. length marks.items ≡ length nodes.now) }
{
    let mut place = nodes.len();
    let mut marks = vec![in alloc; false; place]?;
    marks[place - 1] = true;
    while place > 0 {
        place -= 1;
        if marks[place] {
            mark_parts(&mut marks, nodes[place].parts);
        }
    }
    Ok(marks)
}
