//! The derivation that a derivation of an image leads back to.

ghost use Rattle.std.specs.Prelude.{◌≡◌, ◌<◌, ◌-◌, ℕ, List, Some, length, slice_get, IfOk, IsTrue};
ghost use Rattle.text_base.specs.declared.letter.Letter.{Letter};
ghost use Rattle.derivations.specs.Nodes.{parts_below};
ghost use Rattle.derivations.specs.Lawful.{Grows};
ghost use Rattle.derivations.specs.Stands.{IsDerivation};
ghost use Rattle.grammar_image.specs.Echoes.{IsSourcedImage, text_of};
ghost use Rattle.grammar_image.specs.Leads.{node_of};

use crate::firsts::first_bytes;
use crate::leading::{first_led, leads_of};
use crate::marking::under_root;
use cfg_grammar::{Grammar, Production};
use derivations::{Derivation, Node, Nodes, Part};
use std::alloc::Global;
use text_base::{NoMemory, Nt};

/// The last node.
fn last_node(nodes: &[Node]) -> Node
    requires { 0 < length nodes.now }
    ensures { slice_get nodes.now (length nodes.now - 1) ≡ Some result }
{
    nodes[nodes.len() - 1]
}

/// The node that a part is.
fn node_of(nodes: &[Node], part: Option<Part>) -> Option<Node>
    ensures { result ≡ node_of nodes.now part }
{
    match part {
        None => None,
        Some(Part::Byte(_)) => None,
        Some(Part::Token(_)) => None,
        Some(Part::Inner(node)) => nodes.get(node as usize).copied(),
    }
}

/// The derivation whose root is a use of a production.
fn rooted(mut made: Nodes, root: Node) -> Result<Derivation, NoMemory>
    requires { IsTrue (parts_below (length made.nodes.items) root.parts) }
    ensures { IfOk result
        (λ d. Grows made.nodes.items d.nodes.nodes.items root.production root.parts) }
{
    made.push(root.production, root.parts)?;
    Ok(Derivation::new(made))
}

/// A derivation of a grammar out of one of its image under a machine that copies texts: its
/// sentence is the text that the image's sentence has the bytes of. The image's productions come of
/// the grammar's at `sources`. Linear in the nodes. Nodes that
/// the root does not lead to are passed over, of which no clause speaks.
pub fn source_of(
    alloc: Global,
    productions: &[Production],
    start: Nt,
    sources: &[u64],
    image: &Grammar,
    derivation: &Derivation,
) -> Result<Derivation, NoMemory>
    requires begins { image.now.start ≡ record { 0 = 0 } }
    requires sources { IsSourcedImage productions.now start sources.now
        image.now.productions.items }
    requires derived { (w : List Letter) × IsDerivation image.now.productions.items
        derivation.now.nodes.nodes.items image.now.start w }
    ensures { IfOk result (λ source. (w : List Letter)
        → IsDerivation image.now.productions.items derivation.now.nodes.nodes.items
        image.now.start w
        → IsDerivation productions.now source.nodes.nodes.items start (text_of w)) }
{
    let _ = productions;
    let _ = image;
    let nodes = derivation.nodes.as_slice();
    let firsts = first_bytes(alloc, nodes)?;
    let marks = under_root(alloc, nodes)?;
    let mut made = Nodes::new(alloc);
    let leads = leads_of(
        alloc,
        sources,
        nodes,
        marks.as_slice(),
        firsts.as_slice(),
        &mut made,
    )?;
    let lead = first_led(leads.as_slice(), last_node(nodes).parts);
    match node_of(made.as_slice(), lead) {
        Some(root) => rooted(made, root),
        None => unreachable!(),
    }
}
