//! What a byte leaves of parts.

ghost use Rattle.std.specs.Prelude.{◌≡◌, ◌∷◌, ◌++◌, [], OnOk, if◌then◌else◌};
ghost use Rattle.derivatives.specs.Expressions.{lies};
ghost use Rattle.derivatives.specs.Standing.{expr_at, members_at, IsExpr, IsList};
ghost use Rattle.partial_derivatives.specs.Parts.{behind, behind_list, behind_members, behind_part, behind_parts};

use crate::copying::{before, copy_parts, in_parts, push_listed};
use crate::ending::part_ends;
use crate::part::{Member, Part};
use crate::row::Row;
use derivatives::{Arena, Node};
use std::alloc::Global;
use text_base::NoMemory;

/// Takes a byte off parts, whose expressions lie in an arena. Each call puts rows behind others:
/// what the byte leaves, one way in each row.
#[derive(Clone, Copy)]
pub struct Taking<'a> {
    pub alloc: Global,
    pub arena: &'a Arena,
    pub byte: u8,
}

impl<'a> Taking<'a> {
    /// Of a range, with parts behind it.
    fn range(
        &self,
        rows: &mut Vec<Row<Part>>,
        low: u8,
        high: u8,
        rest: &[Part],
    ) -> Result<(), NoMemory>
        ensures { OnOk result
            (rows.new.items ≡ rows.old.items
            ++ (if lies low high self.now.byte then rest.now ∷ [] else [])) }
    {
        if low <= self.byte && self.byte <= high {
            let row = copy_parts(self.alloc, rest)?;
            rows.push(row)?;
        }
        Ok(())
    }

    /// Of an expression, with parts behind it.
    #[cycle(whole)]
    fn whole(&self, rows: &mut Vec<Row<Part>>, place: usize, rest: &[Part]) -> Result<(), NoMemory>
        requires { IsExpr self.now.arena.now place }
        ensures { OnOk result
            (rows.new.items ≡ rows.old.items
            ++ behind self.now.arena.now self.now.byte (expr_at self.now.arena.now place) place
            rest.now) }
    {
        match self.arena.node(place) {
            Node::Range(low, high) => {
                self.range(rows, low, high, rest)?;
                Ok(())
            }
            Node::Chain(x, y) => {
                let longer = in_parts(self.alloc, self.arena, y, rest)?;
                self.whole(rows, x, longer.as_slice())?;
                if self.arena.may_end(x) {
                    self.whole(rows, y, rest)?;
                }
                Ok(())
            }
            Node::Either(x, y) => {
                self.whole(rows, x, rest)?;
                self.whole(rows, y, rest)?;
                Ok(())
            }
            Node::Star(x) => {
                let longer = before(self.alloc, Part::Whole(place), rest)?;
                self.whole(rows, x, longer.as_slice())?;
                Ok(())
            }
            Node::Among(list) => {
                self.list(rows, list, &[], rest)?;
                Ok(())
            }
            Node::Nothing | Node::Empty | Node::NoMore | Node::Member(_, _, _) => Ok(()),
        }
    }

    /// Of the members of a list, by the one that is first: those in front of it stand among the
    /// others.
    #[cycle(whole)]
    fn list(
        &self,
        rows: &mut Vec<Row<Part>>,
        list: usize,
        front: &[Member],
        rest: &[Part],
    ) -> Result<(), NoMemory>
        requires { IsList self.now.arena.now list }
        ensures { OnOk result
            (rows.new.items ≡ rows.old.items
            ++ behind_list self.now.arena.now self.now.byte (members_at self.now.arena.now list) list
            front.now rest.now) }
    {
        match self.arena.node(list) {
            Node::Member(place, required, others) => {
                let mut members = Row::from_slice(self.alloc, front)?;
                push_listed(self.arena, &mut members, others)?;
                let longer = before(self.alloc, Part::Among(members), rest)?;
                self.whole(rows, place, longer.as_slice())?;
                let mut passed = Row::from_slice(self.alloc, front)?;
                passed.push(Member { place, required })?;
                self.list(rows, others, passed.as_slice(), rest)?;
                Ok(())
            }
            _ => Ok(()),
        }
    }

    /// Of an expression, with parts behind it. A number that has none leaves nothing.
    fn some(&self, rows: &mut Vec<Row<Part>>, place: usize, rest: &[Part]) -> Result<(), NoMemory>
        ensures { OnOk result
            (rows.new.items ≡ rows.old.items
            ++ behind self.now.arena.now self.now.byte (expr_at self.now.arena.now place) place
            rest.now) }
    {
        if self.arena.is_expression(place) {
            self.whole(rows, place, rest)?;
        }
        Ok(())
    }

    /// Of members in a row, by the one that is first: those in front of it stand among the others.
    fn members(
        &self,
        rows: &mut Vec<Row<Part>>,
        front: &[Member],
        members: &[Member],
        rest: &[Part],
    ) -> Result<(), NoMemory>
        ensures { OnOk result
            (rows.new.items ≡ rows.old.items
            ++ behind_members self.now.arena.now self.now.byte front.now members.now rest.now) }
    {
        match members {
            [] => Ok(()),
            [first, others @ ..] => {
                let mut left = Row::from_slice(self.alloc, front)?;
                left.extend(others)?;
                let longer = before(self.alloc, Part::Among(left), rest)?;
                self.some(rows, first.place, longer.as_slice())?;
                let mut passed = Row::from_slice(self.alloc, front)?;
                passed.push(*first)?;
                self.members(rows, passed.as_slice(), others, rest)?;
                Ok(())
            }
        }
    }

    /// Of a part, with parts behind it.
    fn part(&self, rows: &mut Vec<Row<Part>>, part: &Part, rest: &[Part]) -> Result<(), NoMemory>
        ensures { OnOk result
            (rows.new.items ≡ rows.old.items
            ++ behind_part self.now.arena.now self.now.byte part.now rest.now) }
    {
        match part {
            Part::Whole(place) => self.some(rows, *place, rest),
            Part::Among(members) => self.members(rows, &[], members.as_slice(), rest),
        }
    }

    /// Of parts in turn.
    pub fn parts(&self, rows: &mut Vec<Row<Part>>, parts: &[Part]) -> Result<(), NoMemory>
        ensures { OnOk result
            (rows.new.items ≡ rows.old.items
            ++ behind_parts self.now.arena.now self.now.byte parts.now) }
    {
        match parts {
            [] => Ok(()),
            [part, rest @ ..] => {
                self.part(rows, part, rest)?;
                if part_ends(self.arena, part) {
                    self.parts(rows, rest)?;
                }
                Ok(())
            }
        }
    }
}
