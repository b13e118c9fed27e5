//! Whether an expression matches the empty text, and which bytes are alike to it.

ghost use Rattle.std.specs.Prelude.{◌≡◌, ◌≤◌, ℕ};
ghost use Rattle.derivatives.specs.Derivatives.{after};
ghost use Rattle.derivatives.specs.Derivatives as derivatives;
ghost use Rattle.derivatives.specs.Classes as classes;
ghost use Rattle.derivatives.specs.Standing.{expr_at, members_at, IsExpr, IsList};

use crate::arena::Arena;
use crate::node::Node;

impl Arena {
    /// Whether an expression matches the empty text.
    #[cycle(may_end)]
    pub fn may_end(&self, place: usize) -> bool
        requires { IsExpr self.now place }
        ensures { result ≡ derivatives.may_end (expr_at self.now place) }
    {
        match self.node(place) {
            Node::Nothing | Node::Range(_, _) => false,
            Node::Empty | Node::Star(_) => true,
            Node::Chain(x, y) => self.may_end(x) && self.may_end(y),
            Node::Either(x, y) => self.may_end(x) || self.may_end(y),
            Node::Among(list) => self.all_may_end(list),
            Node::NoMore | Node::Member(_, _, _) => unreachable!(),
        }
    }

    /// Whether each member that is required matches the empty text.
    #[cycle(may_end)]
    fn all_may_end(&self, list: usize) -> bool
        requires { IsList self.now list }
        ensures { result ≡ derivatives.all_may_end (members_at self.now list) }
    {
        match self.first_member(list) {
            None => true,
            Some((x, required, rest)) => {
                (!required || self.may_end(x)) && self.all_may_end(rest)
            }
        }
    }

    /// The end of a class of bytes: from this byte up to that one there is one derivative.
    pub fn class_end(&self, byte: u8, place: usize) -> u8
        requires { IsExpr self.now place }
        ensures last { result ≡ classes.last_alike byte (expr_at self.now place) }
        ensures own { byte ≤ result }
        ensures alike { (c : ℕ) → byte ≤ c → c ≤ result
            → after c (expr_at self.now place) ≡ after byte (expr_at self.now place) }
    {
        self.last_alike(byte, place)
    }

    /// The last byte up to which all bytes from this one on are alike to each range that may be
    /// first.
    #[cycle(last_alike)]
    fn last_alike(&self, byte: u8, place: usize) -> u8
        requires { IsExpr self.now place }
        ensures { result ≡ classes.last_alike byte (expr_at self.now place) }
    {
        match self.node(place) {
            Node::Nothing | Node::Empty => u8::MAX,
            Node::Range(low, high) => range_end(byte, low, high),
            Node::Chain(x, y) => {
                let first = self.last_alike(byte, x);
                if self.may_end(x) {
                    first.min(self.last_alike(byte, y))
                } else {
                    first
                }
            }
            Node::Either(x, y) => {
                let first = self.last_alike(byte, x);
                first.min(self.last_alike(byte, y))
            }
            Node::Star(x) => self.last_alike(byte, x),
            Node::Among(list) => self.members_last_alike(byte, list),
            Node::NoMore | Node::Member(_, _, _) => unreachable!(),
        }
    }

    /// The same of all members.
    #[cycle(last_alike)]
    fn members_last_alike(&self, byte: u8, list: usize) -> u8
        requires { IsList self.now list }
        ensures { result ≡ classes.last_of_all byte (members_at self.now list) }
    {
        match self.first_member(list) {
            None => u8::MAX,
            Some((x, _, rest)) => {
                let first = self.last_alike(byte, x);
                first.min(self.members_last_alike(byte, rest))
            }
        }
    }
}

/// The last byte up to which all bytes from this one on lie in a range, or all outside it.
fn range_end(byte: u8, low: u8, high: u8) -> u8
    ensures { result ≡ classes.last_beside low high byte }
{
    if byte < low {
        low - 1
    } else if byte <= high {
        high
    } else {
        u8::MAX
    }
}
