//! Single expressions, and how they are joined.

ghost use Rattle.std.specs.Prelude.{◌≡◌, ◌<◌, [], ◌∷◌, IfOk, IfSome, OnOk, get_or, length, map};
ghost use Rattle.derivatives.specs.Derivatives.{chain_of, either_of};
ghost use Rattle.derivatives.specs.Expressions.{empty, nothing, range, star};
ghost use Rattle.derivatives.specs.Standing.{expr_at, Grows, IsExpr, IsMade};
ghost use Rattle.form_maker.specs.Making.{changed, join_of, joined, last_of, making_of, moved, popped, pushed, with_one};

use crate::joining::Joining;
use crate::maker::Maker;
use derivatives::{Arena, Node};
use std::alloc::Global;
use text_base::{ByteRange, NoMemory, Stack};

impl Maker {
    /// A maker without any expression. Takes no memory.
    pub fn new(alloc: Global) -> Maker
        ensures stack { (making_of result).stack ≡ [] }
        ensures kept { (making_of result).kept ≡ [] }
    {
        Maker {
            alloc,
            arena: Arena::new(alloc),
            stack: Stack::new(alloc),
            kept: Vec::new(alloc),
        }
    }

    /// What matches no text.
    pub fn nothing(&mut self) -> Result<(), NoMemory>
        ensures { OnOk result (making_of self.new ≡ pushed nothing (making_of self.old)) }
    {
        let place = self.arena.nothing()?;
        self.stack.push(place)?;
        Ok(())
    }

    /// What matches the empty text alone.
    pub fn empty(&mut self) -> Result<(), NoMemory>
        ensures { OnOk result (making_of self.new ≡ pushed empty (making_of self.old)) }
    {
        let place = self.arena.empty()?;
        self.stack.push(place)?;
        Ok(())
    }

    /// What matches each byte of a range.
    pub fn range(&mut self, bytes: ByteRange) -> Result<(), NoMemory>
        ensures { OnOk result
            (making_of self.new ≡ pushed (range bytes.lo bytes.hi) (making_of self.old)) }
    {
        let place = self.arena.range(bytes)?;
        self.stack.push(place)?;
        Ok(())
    }

    /// The last one, which is taken off the stack; what matches no text, where there is none.
    fn pop(&mut self) -> Result<usize, NoMemory>
        ensures last { IfOk result
            (λ r. IsMade self.new.arena r (last_of (making_of self.old).stack)) }
        ensures others { OnOk result (making_of self.new ≡ popped (making_of self.old)) }
        ensures keeps { Grows self.old.arena self.new.arena }
    {
        match self.stack.pop() {
            Some(last) => Ok(last),
            None => self.arena.nothing(),
        }
    }

    /// Any number of texts of the last one, one behind the other.
    pub fn star(&mut self) -> Result<(), NoMemory>
        ensures { OnOk result (making_of self.new ≡ changed star (making_of self.old)) }
    {
        let last = self.pop()?;
        let place = self.arena.star(last)?;
        self.stack.push(place)?;
        Ok(())
    }

    /// One expression in place of the last two.
    pub fn join(&mut self, joining: Joining) -> Result<(), NoMemory>
        ensures { OnOk result
            (making_of self.new ≡ joined (join_of joining) (making_of self.old)) }
    {
        let last = self.pop()?;
        let other = self.pop()?;
        let place = joined_in(&mut self.arena, joining, other, last)?;
        self.stack.push(place)?;
        Ok(())
    }

    /// The last expression behind the one before it.
    pub fn chain(&mut self) -> Result<(), NoMemory>
        ensures { OnOk result (making_of self.new ≡ joined chain_of (making_of self.old)) }
    {
        self.join(Joining::Chain)
    }

    /// The last expression before the one before it.
    pub fn chain_before(&mut self) -> Result<(), NoMemory>
        ensures { OnOk result
            (making_of self.new ≡ joined (λ d e. chain_of e d) (making_of self.old)) }
    {
        self.join(Joining::ChainBefore)
    }

    /// The one before the last, or the last.
    pub fn either(&mut self) -> Result<(), NoMemory>
        ensures { OnOk result (making_of self.new ≡ joined either_of (making_of self.old)) }
    {
        self.join(Joining::Either)
    }

    /// The last, or the one before it.
    pub fn either_before(&mut self) -> Result<(), NoMemory>
        ensures { OnOk result
            (making_of self.new ≡ joined (λ d e. either_of e d) (making_of self.old)) }
    {
        self.join(Joining::EitherBefore)
    }

    /// The last one as one member more of the one before it, which are some members in any order.
    pub fn member(&mut self, required: bool) -> Result<(), NoMemory>
        ensures { OnOk result
            (making_of self.new ≡ joined (with_one required) (making_of self.old)) }
    {
        self.join(Joining::Member(required))
    }

    /// Takes the last one off the stack and keeps it behind the others.
    pub fn keep(&mut self) -> Result<(), NoMemory>
        ensures { OnOk result (making_of self.new ≡ moved (making_of self.old)) }
    {
        let last = self.pop()?;
        self.kept.push(last)?;
        Ok(())
    }

    /// Puts one of those that are kept on the stack; what matches no text, where there is none.
    pub fn fetch(&mut self, place: usize) -> Result<(), NoMemory>
        ensures { OnOk result
            (making_of self.new
            ≡ pushed (get_or (making_of self.old).kept place nothing) (making_of self.old)) }
    {
        match self.kept.get(place).copied() {
            Some(kept) => {
                self.stack.push(kept)?;
                Ok(())
            }
            None => {
                self.nothing()?;
                Ok(())
            }
        }
    }
}

/// The one expression joined with the other, in an arena.
fn joined_in(
    arena: &mut Arena,
    joining: Joining,
    other: usize,
    last: usize,
) -> Result<usize, NoMemory>
    requires other { IsExpr arena.old other }
    requires last { IsExpr arena.old last }
    ensures made { IfOk result
        (λ r. IsMade arena.new r
        (join_of joining (expr_at arena.old other) (expr_at arena.old last))) }
    ensures keeps { Grows arena.old arena.new }
{
    match joining {
        Joining::Chain => arena.chain(other, last),
        Joining::ChainBefore => arena.chain(last, other),
        Joining::Either => arena.either(other, last),
        Joining::EitherBefore => arena.either(last, other),
        Joining::Member(required) => with_member(arena, required, other, last),
    }
}

/// Some members in any order, with one more.
fn with_member(arena: &mut Arena, required: bool, all: usize, one: usize) -> Result<usize, NoMemory>
    requires all { IsExpr arena.old all }
    requires one { IsExpr arena.old one }
    ensures made { IfOk result
        (λ r. IsMade arena.new r
        (with_one required (expr_at arena.old all) (expr_at arena.old one))) }
    ensures keeps { Grows arena.old arena.new }
{
    if arena.is_nothing(one) {
        return Ok(if required { one } else { all });
    }
    match arena.node(all) {
        Node::Empty => {
            let none = arena.no_members()?;
            let list = arena.member(one, required, none)?;
            arena.among(list)
        }
        Node::Among(others) => {
            let list = arena.member(one, required, others)?;
            arena.among(list)
        }
        _ => arena.nothing(),
    }
}
