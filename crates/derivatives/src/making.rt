//! Expressions in normal form, by the numbers of their parts.

ghost use Rattle.std.specs.Prelude.{◌≡◌, ◌<◌, true, IfOk, IfSome, IfNone, IsTrue, ◌↔◌};
ghost use Rattle.derivatives.specs.Derivatives.{chain_of, either_of, among_of, unless_occurs};
ghost use Rattle.derivatives.specs.Derivatives as derivatives;
ghost use Rattle.derivatives.specs.Expressions.{nothing, empty, range, star, none, member};
ghost use Rattle.derivatives.specs.Standing.{expr_at, members_at, count_of, is_alone, IsExpr, IsList, IsMade, IsListed, HasAlternatives, HasFirst, Grows};

use crate::arena::Arena;
use crate::node::Node;
use text_base::{ByteRange, NoMemory};

impl Arena {
    /// What matches no text.
    pub fn nothing(&mut self) -> Result<usize, NoMemory>
        ensures made { IfOk result (λ r. IsMade self.new r nothing) }
        ensures keeps { Grows self.old self.new }
    {
        self.put(Node::Nothing)
    }

    /// What matches the empty text alone.
    pub fn empty(&mut self) -> Result<usize, NoMemory>
        ensures made { IfOk result (λ r. IsMade self.new r empty) }
        ensures keeps { Grows self.old self.new }
    {
        self.put(Node::Empty)
    }

    /// What matches each byte of a range.
    pub fn range(&mut self, bytes: ByteRange) -> Result<usize, NoMemory>
        ensures made { IfOk result (λ r. IsMade self.new r (range bytes.lo bytes.hi)) }
        ensures keeps { Grows self.old self.new }
    {
        self.put(Node::Range(bytes.lo, bytes.hi))
    }

    /// Any number of texts of an expression, one behind the other.
    pub fn star(&mut self, x: usize) -> Result<usize, NoMemory>
        requires { IsExpr self.old x }
        ensures made { IfOk result (λ r. IsMade self.new r (star (expr_at self.old x))) }
        ensures keeps { Grows self.old self.new }
    {
        self.put(Node::Star(x))
    }

    /// No members.
    pub fn no_members(&mut self) -> Result<usize, NoMemory>
        ensures made { IfOk result (λ r. IsListed self.new r none) }
        ensures keeps { Grows self.old self.new }
    {
        self.put(Node::NoMore)
    }

    /// A member before others.
    pub fn member(&mut self, x: usize, required: bool, rest: usize) -> Result<usize, NoMemory>
        requires expression { IsExpr self.old x }
        requires others { IsList self.old rest }
        ensures made { IfOk result
            (λ r. IsListed self.new r
            (member (expr_at self.old x) required (members_at self.old rest))) }
        ensures keeps { Grows self.old self.new }
    {
        self.put(Node::Member(x, required, rest))
    }

    /// The first member with whether it is required, and the others.
    pub(crate) fn first_member(&self, list: usize) -> Option<(usize, bool, usize)>
        requires { IsList self.now list }
        ensures some { IfSome result (λ r. HasFirst self.now list r.0 r.1 r.2) }
        ensures none { IfNone result (members_at self.now list ≡ none) }
    {
        match self.node(list) {
            Node::Member(x, required, rest) => Some((x, required, rest)),
            _ => None,
        }
    }

    /// Some of the members, in any order, those that are required among them.
    pub fn among(&mut self, list: usize) -> Result<usize, NoMemory>
        requires { IsList self.old list }
        ensures made { IfOk result (λ r. IsMade self.new r (among_of (members_at self.old list))) }
        ensures keeps { Grows self.old self.new }
    {
        match self.first_member(list) {
            None => self.put(Node::Empty),
            Some(_) => self.put(Node::Among(list)),
        }
    }

    /// Whether an expression is nothing; in normal form, whether it matches no text.
    pub fn is_nothing(&self, x: usize) -> bool
        requires { IsExpr self.now x }
        ensures { IsTrue result ↔ (expr_at self.now x ≡ nothing) }
    {
        matches!(self.node(x), Node::Nothing)
    }

    /// Whether an expression is the empty text alone.
    fn is_empty_text(&self, x: usize) -> bool
        requires { IsExpr self.now x }
        ensures { IsTrue result ↔ (expr_at self.now x ≡ empty) }
    {
        matches!(self.node(x), Node::Empty)
    }

    /// The one expression, and the other behind it.
    pub fn chain(&mut self, x: usize, y: usize) -> Result<usize, NoMemory>
        requires first { IsExpr self.old x }
        requires second { IsExpr self.old y }
        ensures made { IfOk result
            (λ r. IsMade self.new r (chain_of (expr_at self.old x) (expr_at self.old y))) }
        ensures keeps { Grows self.old self.new }
    {
        if self.is_nothing(x) {
            return Ok(x);
        }
        if self.is_empty_text(x) {
            return Ok(y);
        }
        if self.is_nothing(y) {
            return Ok(y);
        }
        if self.is_empty_text(y) {
            return Ok(x);
        }
        self.put(Node::Chain(x, y))
    }

    /// The first of alternatives, and the others.
    fn alternatives(&self, x: usize) -> Option<(usize, usize)>
        requires { IsExpr self.now x }
        ensures some { IfSome result (λ r. HasAlternatives self.now x r.0 r.1) }
        ensures none { IfNone result (is_alone (expr_at self.now x) ≡ true) }
    {
        match self.node(x) {
            Node::Either(first, second) => Some((first, second)),
            _ => None,
        }
    }

    /// Whether the one expression is an alternative of the other. Alternatives have smaller numbers than what is made of them, so
    /// what was made last is told at once.
    fn occurs(&self, x: usize, y: usize) -> bool
        requires first { IsExpr self.now x }
        requires second { IsExpr self.now y }
        ensures { result ≡ derivatives.occurs (expr_at self.now x) (expr_at self.now y) }
    {
        let _count = self.len();
        if y < x {
            return false;
        }
        match self.alternatives(y) {
            Some((first, second)) => {
                if first == x {
                    return true;
                }
                self.occurs(x, second)
            }
            None => x == y,
        }
    }

    /// The one expression, which is neither nothing nor alternatives, or the other.
    fn beside(&mut self, x: usize, y: usize) -> Result<usize, NoMemory>
        requires first { IsExpr self.old x }
        requires second { IsExpr self.old y }
        ensures made { IfOk result
            (λ r. IsMade self.new r
            (unless_occurs (derivatives.occurs (expr_at self.old x) (expr_at self.old y))
            (expr_at self.old x) (expr_at self.old y))) }
        ensures keeps { Grows self.old self.new }
    {
        if self.occurs(x, y) {
            return Ok(y);
        }
        if self.is_nothing(y) {
            return Ok(x);
        }
        self.put(Node::Either(x, y))
    }

    /// The one expression or the other.
    pub fn either(&mut self, x: usize, y: usize) -> Result<usize, NoMemory>
        requires first { IsExpr self.old x }
        requires second { IsExpr self.old y }
        ensures made { IfOk result
            (λ r. IsMade self.new r (either_of (expr_at self.old x) (expr_at self.old y))) }
        ensures keeps { Grows self.old self.new }
    {
        if self.is_nothing(x) {
            return Ok(y);
        }
        match self.alternatives(x) {
            Some((first, second)) => {
                let rest = self.either(second, y)?;
                self.either(first, rest)
            }
            None => self.beside(x, y),
        }
    }
}
