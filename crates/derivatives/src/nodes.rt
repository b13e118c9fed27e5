//! Nodes of an arena: what a number stands for, and new ones.

ghost use Rattle.std.specs.Prelude.{◌≡◌, ◌<◌, true, Some, IfOk, IsTrue, ◌↔◌};
ghost use Rattle.derivatives.specs.Nodes.{AreBelow, is_expr_at, is_list_at};
ghost use Rattle.derivatives.specs.Standing.{count_of, node_at, HasParts, expr_of, members_of, expr_at, members_at, IsExpr, IsList, IsMade, IsListed, Grows, HasEachOnce};

use crate::arena::Arena;
use crate::node::Node;
use indexmap::IndexSet;
use numbered_sets::{count, number};
use std::alloc::Global;
use text_base::NoMemory;

impl Arena {
    /// An arena without any expression. Takes no memory.
    pub fn new(alloc: Global) -> Arena
        ensures { count_of result ≡ 0 }
    {
        Arena {
            nodes: IndexSet::new(alloc),
        }
    }

    /// How many expressions and lists of members there are. None of them is there twice.
    pub fn len(&self) -> usize
        ensures count { result ≡ count_of self.now }
        ensures once { HasEachOnce self.now }
    {
        count(&self.nodes)
    }

    /// Whether a number is that of an expression.
    pub fn is_expression(&self, place: usize) -> bool
        ensures { IsTrue result ↔ IsExpr self.now place }
    {
        match self.nodes.get_index(place) {
            None | Some(Node::NoMore | Node::Member(_, _, _)) => false,
            Some(_) => true,
        }
    }

    /// Whether a number is that of members.
    pub fn is_members(&self, place: usize) -> bool
        ensures { IsTrue result ↔ IsList self.now place }
    {
        match self.nodes.get_index(place) {
            Some(Node::NoMore | Node::Member(_, _, _)) => true,
            _ => false,
        }
    }

    /// The node with this number.
    pub fn node(&self, place: usize) -> Node
        requires { place < count_of self.now }
        ensures at { node_at self.now place ≡ Some result }
        ensures below { AreBelow place result }
        ensures parts { HasParts self.now result }
        ensures expression { expr_at self.now place
            ≡ expr_of (expr_at self.now) (members_at self.now) (Some result) }
        ensures members { members_at self.now place
            ≡ members_of (expr_at self.now) (members_at self.now) (Some result) }
    {
        let Some(node) = self.nodes.get_index(place) else {
            unreachable!()
        };
        *node
    }

    /// The number of a node, which is put behind the others where it is new.
    pub(crate) fn put(&mut self, node: Node) -> Result<usize, NoMemory>
        requires { HasParts self.old node }
        ensures expression { is_expr_at (Some node) ≡ true → IfOk result
            (λ r. IsMade self.new r (expr_of (expr_at self.old) (members_at self.old) (Some node))) }
        ensures members { is_list_at (Some node) ≡ true → IfOk result
            (λ r. IsListed self.new r
            (members_of (expr_at self.old) (members_at self.old) (Some node))) }
        ensures keeps { Grows self.old self.new }
    {
        let (place, _) = number(&mut self.nodes, node)?;
        Ok(place)
    }
}
