//! A reader of expressions, and what it has begun.

ghost use Rattle.std.specs.Prelude.{◌≡◌, ◌==◌, ◌∷◌, [], MatchOption, OnOk};
ghost use Rattle.expr_machine.specs.declared.frame.Focus.TheVariants as focus;
ghost use Rattle.expr_machine.specs.Machine as machine;
ghost use Rattle.expr_machine.specs.Machine.{moves};
ghost use Rattle.expr_parser.specs.Frames as frames;
ghost use Rattle.expr_parser.specs.Heads.{terminals_of};
ghost use Rattle.expr_parser.specs.Outcomes.{Moves};

use crate::step::Step;
use expr_builder::action::Actions;
use expr_machine::frame::{Focus, Frame};
use php_syntax::token::Token;
use script_grammar::operator::{Level, Operator, Prefix, level_rank};
use std::alloc::Global;
use std::marker::Model;
use text_base::{NoMemory, Stack};

/// What the last thing begun waits for, where it waits for less than an expression.
#[derive(Clone, Copy, Debug, PartialEq, Eq)]
pub(crate) enum Waiting {
    /// A unary operand.
    Prefix(Prefix),
    /// The right operand of an operator.
    Operator(Level, Operator),
    /// An operand of `.`, behind so many others.
    Join(usize),
    /// The right operand of `??`.
    Coalesce,
    /// What stands behind `?:`.
    ShortChoice,
    /// What stands behind the colon of a choice.
    FullChoice,
    /// An expression.
    Whole,
}

// What a thing that was begun waits for.
fn waiting_for(frame: &Frame) -> Waiting
    ensures { result ≡ frames.waiting_for frame.now }
{
    match frame {
        Frame::Prefix(prefix) => Waiting::Prefix(*prefix),
        Frame::Operator(level, operator) => Waiting::Operator(*level, *operator),
        Frame::Join(count) => Waiting::Join(*count),
        Frame::Coalesce => Waiting::Coalesce,
        Frame::ShortChoice => Waiting::ShortChoice,
        Frame::FullChoice => Waiting::FullChoice,
        _ => Waiting::Whole,
    }
}

// How loose a value is that is waited for.
fn rank_of(waiting: Waiting) -> u32
    ensures { result ≡ frames.rank_of waiting }
{
    match waiting {
        Waiting::Prefix(_) => 0,
        Waiting::Operator(level, _) => level_rank(level),
        Waiting::Join(_) => 3,
        Waiting::Coalesce => 8,
        Waiting::ShortChoice => 8,
        Waiting::FullChoice => 8,
        Waiting::Whole => 10,
    }
}

/// A reader of an expression. Contracts see what it has begun and waits for a value, the last thing
/// begun first.
#[derive(Drop)]
pub(crate) struct Reader {
    pub(crate) alloc: Global,
    frames: Stack<Frame>,
}

impl Model for Reader {
    ghost use Rattle.std.specs.Prelude.{List};
    ghost use Rattle.expr_machine.specs.declared.frame.Frame.{Frame};

    ghost Value = { List Frame };

    ghost view = { λ s. s.frames };
}

impl Reader {
    /// Nothing is begun. Takes no memory.
    pub(crate) fn new(alloc: Global) -> Reader
        ensures { result ≡ [] }
    {
        Reader {
            alloc,
            frames: Stack::new(alloc),
        }
    }

    /// One more thing is begun.
    pub(crate) fn push(&mut self, frame: Frame) -> Result<(), NoMemory>
        ensures { OnOk result (self.new ≡ frame ∷ self.old) }
    {
        self.frames.push(frame)
    }

    /// A thing is begun, and an expression or an operand begins behind it.
    pub(crate) fn open<'a>(&mut self, frame: Frame, rest: &'a [Token]) -> Result<Step<'a>, NoMemory>
        ensures { Moves result self.new
            (moves focus.Begin (frame ∷ self.old) (terminals_of rest.now) []) }
    {
        self.frames.push(frame)?;
        Ok(Step::Go(Focus::Begin, rest, Actions::Nothing))
    }

    /// Takes the last thing begun.
    pub(crate) fn pop(&mut self) -> Option<Frame>
        ensures { MatchOption result ((self.old ≡ []) × (self.new ≡ []))
            (λ frame. self.old ≡ frame ∷ self.new) }
    {
        self.frames.pop()
    }

    /// What the last thing begun waits for.
    pub(crate) fn waiting(&self) -> Waiting
        ensures { result ≡ frames.waiting_of self.now }
    {
        match self.frames.last() {
            None => Waiting::Whole,
            Some(frame) => waiting_for(frame),
        }
    }

    /// How loose a value the last thing begun waits for.
    pub(crate) fn wanted_rank(&self) -> u32
        ensures { result ≡ machine.wanted_rank self.now }
    {
        rank_of(self.waiting())
    }

    /// Whether the last thing begun waits for a whole expression.
    pub(crate) fn wants_whole(&self) -> bool
        ensures { result ≡ (machine.wanted_rank self.now == 10) }
    {
        self.wanted_rank() == 10
    }

    /// Drops the last thing begun.
    pub(crate) fn drop_top(&mut self)
        ensures { self.new ≡ frames.behind_top self.old }
    {
        let _top = self.frames.pop();
    }
}
