//! Derivatives by numbers.

ghost use Rattle.std.specs.Prelude.{◌≡◌, IfOk};
ghost use Rattle.derivatives.specs.Derivatives.{after, after_members};
ghost use Rattle.derivatives.specs.Derivatives as derivatives;
ghost use Rattle.derivatives.specs.Expressions.{range};
ghost use Rattle.derivatives.specs.Standing.{expr_at, members_at, IsExpr, IsList, IsMade, IsListed, Grows};

use crate::arena::Arena;
use crate::node::Node;
use text_base::NoMemory;

impl Arena {
    /// The second members behind the first, which are turned round.
    fn onto(&mut self, front: usize, list: usize) -> Result<usize, NoMemory>
        requires front { IsList self.old front }
        requires list { IsList self.old list }
        ensures made { IfOk result
            (λ r. IsListed self.new r
            (derivatives.onto (members_at self.old front) (members_at self.old list))) }
        ensures keeps { Grows self.old self.new }
    {
        match self.first_member(front) {
            None => Ok(list),
            Some((x, required, rest)) => {
                let next = self.member(x, required, list)?;
                self.onto(rest, next)
            }
        }
    }

    /// What a range matches behind a byte.
    fn range_derivative(&mut self, byte: u8, low: u8, high: u8) -> Result<usize, NoMemory>
        ensures made { IfOk result (λ r. IsMade self.new r (after byte (range low high))) }
        ensures keeps { Grows self.old self.new }
    {
        if byte < low {
            return self.nothing();
        }
        if byte > high {
            return self.nothing();
        }
        self.empty()
    }

    /// The derivative of an expression: what it matches behind a byte.
    #[cycle(derivative)]
    pub fn derivative(&mut self, byte: u8, place: usize) -> Result<usize, NoMemory>
        requires { IsExpr self.old place }
        ensures made { IfOk result (λ r. IsMade self.new r (after byte (expr_at self.old place))) }
        ensures keeps { Grows self.old self.new }
    {
        match self.node(place) {
            Node::Nothing | Node::Empty => self.nothing(),
            Node::Range(low, high) => self.range_derivative(byte, low, high),
            Node::Chain(x, y) => {
                let first = self.derivative(byte, x)?;
                let begun = self.chain(first, y)?;
                if self.may_end(x) {
                    let second = self.derivative(byte, y)?;
                    self.either(begun, second)
                } else {
                    let failed = self.nothing()?;
                    self.either(begun, failed)
                }
            }
            Node::Either(x, y) => {
                let first = self.derivative(byte, x)?;
                let second = self.derivative(byte, y)?;
                self.either(first, second)
            }
            Node::Star(x) => {
                let first = self.derivative(byte, x)?;
                self.chain(first, place)
            }
            Node::Among(list) => {
                let front = self.no_members()?;
                self.members_derivative(byte, front, list)
            }
            Node::NoMore | Node::Member(_, _, _) => unreachable!(),
        }
    }

    /// The same of members, by the one that is first: those in front, turned round, stand among
    /// the others.
    #[cycle(derivative)]
    fn members_derivative(&mut self, byte: u8, front: usize, list: usize) -> Result<usize, NoMemory>
        requires front { IsList self.old front }
        requires list { IsList self.old list }
        ensures made { IfOk result
            (λ r. IsMade self.new r
            (after_members byte (members_at self.old front) (members_at self.old list))) }
        ensures keeps { Grows self.old self.new }
    {
        match self.first_member(list) {
            None => self.nothing(),
            Some((x, required, rest)) => {
                let others = self.onto(front, rest)?;
                let all = self.among(others)?;
                let first = self.derivative(byte, x)?;
                let begun = self.chain(first, all)?;
                let further = self.member(x, required, front)?;
                let later = self.members_derivative(byte, further, rest)?;
                self.either(begun, later)
            }
        }
    }
}
