//! Building lists of nodes, and the type of derivations.

ghost use Rattle.std.specs.Prelude.{◌≡◌, ◌<◌, ◌∷◌, [], ◌++◌, length, IsTrue, IfOk, OnOk, OnErr, ◌↔◌};
ghost use Rattle.derivations.specs.Nodes.{part_length, parts_length, part_below, parts_below};
ghost use Rattle.derivations.specs.Lawful.{AreLawful, Grows};
ghost use Rattle.derivations.specs.Stands.{root_of};

use crate::node::{Node, Part, Parts};
use crate::nodes::Nodes;
use std::alloc::Global;
use text_base::NoMemory;

/// A derivation: a list of nodes whose last one is the root.
#[derive(Debug, Drop)]
pub struct Derivation {
    pub nodes: Nodes,
    ghost rooted: { 0 < length nodes.nodes.items },
}

impl Nodes {
    /// No nodes.
    pub fn new(alloc: Global) -> Nodes
        ensures { result.nodes.items ≡ [] }
    {
        Nodes {
            nodes: Vec::new(alloc),
        }
    }

    fn part_length(&self, part: Part) -> u64
        ensures { result ≡ part_length self.now.nodes.items part }
    {
        match part {
            Part::Byte(_) => 1,
            Part::Token(_) => 0,
            Part::Inner(node) => match self.nodes.get(node as usize) {
                Some(node) => node.length,
                None => 0,
            },
        }
    }

    fn parts_length(&self, parts: Parts) -> u64
        ensures { result ≡ parts_length self.now.nodes.items parts }
    {
        match parts {
            Parts::Empty => 0,
            Parts::One(a) => self.part_length(a),
            Parts::Two(a, b) => self.part_length(a).saturating_add(self.part_length(b)),
        }
    }
}

/// Puts a node behind the others. For want of memory nothing changes.
pub(crate) fn push_node(nodes: &mut Vec<Node>, node: Node) -> Result<(), NoMemory>
    ensures ok { OnOk result (nodes.new.items ≡ nodes.old.items ++ node ∷ []) }
    ensures err { OnErr result (nodes.new.items ≡ nodes.old.items) }
{
    nodes.push(node)?;
    Ok(())
}

impl Nodes {
    /// How many nodes there are.
    pub fn len(&self) -> usize
        ensures { result ≡ length self.now.nodes.items }
    {
        self.nodes.len()
    }

    /// Whether there is no node.
    pub fn is_empty(&self) -> bool
        ensures { IsTrue result ↔ (self.now.nodes.items ≡ []) }
    {
        self.nodes.is_empty()
    }

    /// The nodes.
    pub fn as_slice(&self) -> &[Node]
        ensures { result.now ≡ self.now.nodes.items }
    {
        self.nodes.as_slice()
    }

    /// Puts a use of a production behind the others, which its parts may name. For want of
    /// memory nothing changes.
    pub fn push(&mut self, production: u64, parts: Parts) -> Result<(), NoMemory>
        requires { IsTrue (parts_below (length self.old.nodes.items) parts) }
        ensures ok { OnOk result (Grows self.old.nodes.items self.new.nodes.items production parts) }
        ensures err { OnErr result (self.new.nodes.items ≡ self.old.nodes.items) }
    {
        let length = self.parts_length(parts);
        let node = Node {
            production,
            parts,
            length,
        };
        push_node(&mut self.nodes, node)
    }
}

impl Derivation {
    /// The derivation whose root is the last node.
    pub fn new(nodes: Nodes) -> Derivation
        requires { 0 < length nodes.nodes.items }
        ensures { result.nodes.nodes.items ≡ nodes.nodes.items }
    {
        Derivation { nodes }
    }
}

/// The number of bytes of the sentence of a derivation, at most the largest `u64`.
pub fn length(derivation: &Derivation) -> u64
    ensures { result ≡ part_length derivation.now.nodes.nodes.items
        (root_of derivation.now.nodes.nodes.items) }
{
    match derivation.nodes.nodes.last() {
        Some(node) => node.length,
        None => 0,
    }
}
