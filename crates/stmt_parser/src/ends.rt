//! The moves behind a statement.

ghost use Rattle.std.specs.Prelude.{◌≡◌, ◌∷◌, [], List, MatchOption};
ghost use Rattle.expr_parser.specs.Heads.{terminals_of};
ghost use Rattle.stmt_machine.specs.declared.frame.Frame as frames;
ghost use Rattle.stmt_machine.specs.declared.frame.Frame.TheVariants as frame;
ghost use Rattle.stmt_machine.specs.declared.frame.Focus.TheVariants as focus;
ghost use Rattle.stmt_machine.specs.Actions.{loop_action};
ghost use Rattle.stmt_machine.specs.Machine as machine;
ghost use Rattle.stmt_machine.specs.Machine.{condition_at, moves};
ghost use Rattle.stmt_parser.specs.Outcomes.{Moves};

use crate::heads::{behind_word, word_at};
use crate::reader::Reader;
use crate::step::{Step, gone, jump};
use expr_parser::head::behind_sign;
use php_syntax::token::{Sign, Token};
use script_grammar::keyword::Keyword;
use stmt_machine::frame::{Focus, Frame, Loop};
use text_base::NoMemory;

// Whether a word ends a loop.
fn ends_loop(of: &Loop, word: Keyword) -> bool
    ensures { result ≡ machine.ends_loop of.now word }
{
    match of {
        Loop::While => word == Keyword::EndWhile,
        Loop::For { .. } => word == Keyword::EndFor,
        Loop::Each { .. } => word == Keyword::EndForeach,
    }
}

// What stands behind the word that ends a loop, if it stands here.
fn behind_loop<'a>(of: &Loop, rest: &'a [Token]) -> Option<&'a [Token]>
    ensures { MatchOption result
        ((fs : List frames.Frame) → machine.colon_body_move of.now fs (terminals_of rest.now)
        ≡ moves focus.Begin (frame.ColonBody of.now ∷ fs) (terminals_of rest.now) [])
        (λ behind. (fs : List frames.Frame) →
        machine.colon_body_move of.now fs (terminals_of rest.now)
        ≡ machine.jump_move (loop_action of.now) fs (terminals_of behind.now)) }
{
    let Some((word, behind)) = word_at(rest) else {
        return None;
    };
    if ends_loop(of, word) {
        return Some(behind);
    }
    None
}

impl Reader {
    // Inside braces.
    fn block_step<'a>(&mut self, rest: &'a [Token]) -> Result<Step<'a>, NoMemory>
        ensures { Moves (machine.block_move self.old.frames (terminals_of rest.now))
            self.old result self.new }
    {
        match behind_sign(rest, Sign::CloseBrace) {
            Some(behind) => Ok(Step::Go(Focus::Behind, behind)),
            None => self.enter(Frame::Block, Focus::Begin, rest),
        }
    }

    // Inside the body of a loop that begins with `:`.
    fn colon_body_step<'a>(&mut self, of: Loop, rest: &'a [Token]) -> Result<Step<'a>, NoMemory>
        ensures { Moves (machine.colon_body_move of self.old.frames (terminals_of rest.now))
            self.old result self.new }
    {
        let Some(behind) = behind_loop(&of, rest) else {
            return self.enter(Frame::ColonBody(of), Focus::Begin, rest);
        };
        let done = self.maker.end_loop(self.alloc, of)?;
        Ok(jump(done, behind))
    }

    // Behind the `while` of a `do`.
    fn do_end_step<'a>(&mut self, rest: &'a [Token]) -> Result<Step<'a>, NoMemory>
        ensures { Moves (machine.do_end_move self.old.frames (condition_at (terminals_of rest.now)))
            self.old result self.new }
    {
        let Some(behind) = self.read_condition(rest)? else {
            return Ok(Step::Stuck(rest));
        };
        let done = self.maker.end_do()?;
        Ok(jump(done, behind))
    }

    // Behind the body of a `do`.
    fn do_step<'a>(&mut self, rest: &'a [Token]) -> Result<Step<'a>, NoMemory>
        ensures { Moves (machine.do_move self.old.frames (terminals_of rest.now))
            self.old result self.new }
    {
        match behind_word(rest, Keyword::While) {
            None => Ok(Step::Stuck(rest)),
            Some(behind) => self.do_end_step(behind),
        }
    }

    /// Behind a statement.
    pub(crate) fn behind_step<'a>(&mut self, rest: &'a [Token]) -> Result<Step<'a>, NoMemory>
        ensures { Moves (machine.behind_move self.old.frames (terminals_of rest.now))
            self.old result self.new }
    {
        match self.frames.pop() {
            None => self.part_step(rest),
            Some(Frame::Block) => self.block_step(rest),
            Some(Frame::Arm(count)) => self.arm_step(count, rest),
            Some(Frame::Else(count)) => {
                let done = self.maker.end_if(self.alloc, count, true)?;
                Ok(gone(done, Focus::Behind, rest))
            }
            Some(Frame::ColonArm(count)) => self.colon_arm_step(count, rest),
            Some(Frame::ColonElse(count)) => self.colon_else_end_step(count, rest),
            Some(Frame::Body(of)) => {
                let done = self.maker.end_loop(self.alloc, of)?;
                Ok(gone(done, Focus::Behind, rest))
            }
            Some(Frame::ColonBody(of)) => self.colon_body_step(of, rest),
            Some(Frame::Do) => self.do_step(rest),
            Some(Frame::Function) => self.function_end_step(rest),
        }
    }
}
