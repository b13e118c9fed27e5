//! Patterns are put together from the right.

ghost use Rattle.std.specs.Prelude.{◌≡◌, [], List, Option, None, IfOk, OnOk, MatchOption};
ghost use Rattle.derivatives.specs.Standing.{IsExpr};
ghost use Rattle.page_policy.specs.Patterns.{void, seq};
ghost use Rattle.page_policy.specs.Patterns.{Pattern as Plain};
ghost use Rattle.page_policy.specs.Machine.{PlainPart, State, wrong, at, put, state_of, Outer};
ghost use Rattle.page_policy.specs.Machine as spec;
ghost use Rattle.page_policy.specs.Built.{HoldsIn, IsHeld, IsPut, IsBuilt};
ghost use Rattle.page_policy.specs.Forms.{IsForm};
ghost use Rattle.page_policy.specs.Views.{IsPart, AreParts};

use crate::forms::{byte_form, repeated};
use crate::frame::Frame;
use crate::part::{Part, Repeat};
use crate::pattern::Pattern;
use derivatives::Arena;
use std::alloc::Global;
use text_base::{NoMemory, Stack};

/// What is read of the end of a file: the row that begins here, the alternatives behind it, and the
/// same behind each bracket that is not open yet.
#[derive(Drop)]
pub(crate) struct Building {
    pub(crate) arena: Arena,
    pub(crate) row: usize,
    pub(crate) others: Option<usize>,
    pub(crate) outer: Stack<Frame>,
}

impl Building {
    /// Nothing is read.
    fn new(alloc: Global) -> Result<Building, NoMemory>
        ensures { IfOk result (λ b. HoldsIn b (at void None [])) }
    {
        let mut arena = Arena::new(alloc);
        let row = arena.empty()?;
        Ok(Building {
            arena,
            row,
            others: None,
            outer: Stack::new(alloc),
        })
    }

    /// The row with the alternatives behind it.
    fn joined(&mut self) -> Result<usize, NoMemory>
        requires { IsHeld self.old }
        ensures made { (p : Plain) (o : Option Plain) (os : List Outer) → HoldsIn self.old (at p o os)
            → IfOk result (λ r. IsForm self.new.arena r (spec.joined p o)) }
        ensures keeps { (p : Plain) (o : Option Plain) (os : List Outer) → HoldsIn self.old (at p o os)
            → OnOk result (HoldsIn self.new (at p o os)) }
    {
        match self.others {
            Some(others) => self.arena.either(self.row, others),
            None => Ok(self.row),
        }
    }

    /// Puts something before the row, so often.
    fn put_first(&mut self, form: usize, repeat: Repeat) -> Result<(), NoMemory>
        requires form { IsExpr self.old.arena form }
        requires held { IsHeld self.old }
        ensures { (p q : Plain) (o : Option Plain) (os : List Outer) → IsForm self.old.arena form p
            → HoldsIn self.old (at q o os)
            → OnOk result (HoldsIn self.new (at (seq (spec.repeated repeat p) q) o os)) }
    {
        let form = repeated(&mut self.arena, form, repeat)?;
        self.row = self.arena.chain(form, self.row)?;
        Ok(())
    }

    /// Puts a part before what is read, and tells whether it may stand there.
    fn put(&mut self, part: &Part) -> Result<bool, NoMemory>
        requires { IsHeld self.old }
        ensures { (x : PlainPart) (s : State) → IsPart part.now x → HoldsIn self.old s
            → IfOk result (λ may. IsPut self.new may (put x s)) }
    {
        match part {
            Part::Byte(class, repeat) => {
                let form = byte_form(&mut self.arena, class)?;
                self.put_first(form, *repeat)?;
            }
            Part::Bar => {
                let others = self.joined()?;
                self.others = Some(others);
                self.row = self.arena.empty()?;
            }
            Part::Close(repeat) => {
                self.outer.push(Frame {
                    row: self.row,
                    others: self.others,
                    repeat: *repeat,
                })?;
                self.row = self.arena.empty()?;
                self.others = None;
            }
            Part::Open => {
                let form = self.joined()?;
                let Some(frame) = self.outer.pop() else {
                    return Ok(false);
                };
                self.row = frame.row;
                self.others = frame.others;
                self.put_first(form, frame.repeat)?;
            }
        }
        Ok(true)
    }

    /// What is read, where no bracket is left that is not open.
    fn finish(mut self) -> Result<Option<Pattern>, NoMemory>
        requires { IsHeld self }
        ensures { (s : State) → HoldsIn self s → IfOk result (λ r. IsBuilt r s) }
    {
        if self.outer.last().is_some() {
            return Ok(None);
        }
        let root = self.joined()?;
        Ok(Some(Pattern {
            arena: self.arena,
            root,
        }))
    }
}

/// The pattern of the parts of a whole file, if there is one.
pub(crate) fn build(alloc: Global, parts: &[Part]) -> Result<Option<Pattern>, NoMemory>
    requires { (xs : List PlainPart) × AreParts parts.now xs }
    ensures { (xs : List PlainPart) → AreParts parts.now xs
        → IfOk result (λ r. IsBuilt r (state_of xs)) }
{
    let mut building = Building::new(alloc)?;
    let mut left = parts.len();
    while left > 0 {
        left -= 1;
        if !building.put(&parts[left])? {
            return Ok(None);
        }
    }
    building.finish()
}
