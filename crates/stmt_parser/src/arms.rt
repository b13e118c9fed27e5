//! The moves behind the arms of an `if`.

ghost use Rattle.expr_parser.specs.Heads.{terminals_of};
ghost use Rattle.stmt_machine.specs.Machine as machine;
ghost use Rattle.stmt_machine.specs.Machine.{condition_at};
ghost use Rattle.stmt_parser.specs.Nexts.{else_if_next, colon_elseif_next, colon_arm_end_next};
ghost use Rattle.stmt_parser.specs.Outcomes.{Moves};

use crate::heads::behind_word;
use crate::reader::Reader;
use crate::step::{Step, gone, jump, one_more};
use expr_parser::head::behind_sign;
use php_syntax::token::{Sign, Token};
use script_grammar::keyword::Keyword;
use stmt_machine::frame::{Focus, Frame};
use text_base::NoMemory;

impl Reader {
    // Behind `elseif`.
    fn elseif_step<'a>(&mut self, count: usize, rest: &'a [Token]) -> Result<Step<'a>, NoMemory>
        ensures { Moves (machine.elseif_move count self.old.frames
            (condition_at (terminals_of rest.now))) self.old result self.new }
    {
        let Some(behind) = self.read_condition(rest)? else {
            return Ok(Step::Stuck(rest));
        };
        let more = one_more(count)?;
        self.open_body(false, Frame::Arm(more), Focus::Begin, behind)
    }

    // Behind the condition of an `else if`, whose body was opened before.
    fn else_if_body<'a>(&mut self, count: usize, rest: &'a [Token]) -> Result<Step<'a>, NoMemory>
        ensures { Moves (else_if_next count self.old.frames (terminals_of rest.now))
            self.old result self.new }
    {
        match behind_sign(rest, Sign::Colon) {
            Some(behind) => {
                self.frames.push(Frame::Else(count))?;
                self.open_body(false, Frame::ColonArm(1), Focus::Behind, behind)
            }
            None => {
                let more = one_more(count)?;
                self.enter(Frame::Arm(more), Focus::Begin, rest)
            }
        }
    }

    // Behind `else if`. Its body is opened before its condition is read.
    fn else_if_step<'a>(&mut self, count: usize, rest: &'a [Token]) -> Result<Step<'a>, NoMemory>
        ensures { Moves (machine.else_if_move count self.old.frames
            (condition_at (terminals_of rest.now))) self.old result self.new }
    {
        let done = self.maker.open(self.alloc, false)?;
        if !done {
            return Ok(Step::Stuck(rest));
        }
        let Some(behind) = self.read_condition(rest)? else {
            return Ok(Step::Stuck(rest));
        };
        self.else_if_body(count, behind)
    }

    // Behind `else`.
    fn else_step<'a>(&mut self, count: usize, rest: &'a [Token]) -> Result<Step<'a>, NoMemory>
        ensures { Moves (machine.else_move count self.old.frames (terminals_of rest.now))
            self.old result self.new }
    {
        match behind_word(rest, Keyword::If) {
            Some(behind) => self.else_if_step(count, behind),
            None => self.open_body(false, Frame::Else(count), Focus::Begin, rest),
        }
    }

    /// Behind the statement of the last of so many arms.
    pub(crate) fn arm_step<'a>(
        &mut self,
        count: usize,
        rest: &'a [Token],
    ) -> Result<Step<'a>, NoMemory>
        ensures { Moves (machine.arm_move count self.old.frames (terminals_of rest.now))
            self.old result self.new }
    {
        match behind_word(rest, Keyword::ElseIf) {
            Some(behind) => self.elseif_step(count, behind),
            None => match behind_word(rest, Keyword::Else) {
                Some(behind) => self.else_step(count, behind),
                None => {
                    let done = self.maker.end_if(self.alloc, count, false)?;
                    Ok(gone(done, Focus::Behind, rest))
                }
            },
        }
    }

    // Behind the condition of an `elseif` in the form with `:`.
    fn colon_elseif_body<'a>(
        &mut self,
        count: usize,
        rest: &'a [Token],
    ) -> Result<Step<'a>, NoMemory>
        ensures { Moves (colon_elseif_next count self.old.frames (terminals_of rest.now))
            self.old result self.new }
    {
        let Some(behind) = behind_sign(rest, Sign::Colon) else {
            return Ok(Step::Stuck(rest));
        };
        let more = one_more(count)?;
        self.open_body(false, Frame::ColonArm(more), Focus::Behind, behind)
    }

    // Behind `elseif` in the form with `:`.
    fn colon_elseif_step<'a>(
        &mut self,
        count: usize,
        rest: &'a [Token],
    ) -> Result<Step<'a>, NoMemory>
        ensures { Moves (machine.colon_elseif_move count self.old.frames
            (condition_at (terminals_of rest.now))) self.old result self.new }
    {
        let Some(behind) = self.read_condition(rest)? else {
            return Ok(Step::Stuck(rest));
        };
        self.colon_elseif_body(count, behind)
    }

    // Behind `else` in the form with `:`.
    fn colon_else_step<'a>(&mut self, count: usize, rest: &'a [Token]) -> Result<Step<'a>, NoMemory>
        ensures { Moves (machine.colon_else_move count self.old.frames (terminals_of rest.now))
            self.old result self.new }
    {
        let Some(behind) = behind_sign(rest, Sign::Colon) else {
            return Ok(Step::Stuck(rest));
        };
        self.open_body(false, Frame::ColonElse(count), Focus::Behind, behind)
    }

    // Behind a statement of the last of so many arms in the form with `:`, where no arm follows.
    fn colon_arm_end<'a>(&mut self, count: usize, rest: &'a [Token]) -> Result<Step<'a>, NoMemory>
        ensures { Moves (colon_arm_end_next count self.old.frames (terminals_of rest.now))
            self.old result self.new }
    {
        let Some(behind) = behind_word(rest, Keyword::EndIf) else {
            return self.enter(Frame::ColonArm(count), Focus::Begin, rest);
        };
        let done = self.maker.end_if(self.alloc, count, false)?;
        Ok(jump(done, behind))
    }

    /// Behind a statement of the last of so many arms in the form with `:`.
    pub(crate) fn colon_arm_step<'a>(
        &mut self,
        count: usize,
        rest: &'a [Token],
    ) -> Result<Step<'a>, NoMemory>
        ensures { Moves (machine.colon_arm_move count self.old.frames (terminals_of rest.now))
            self.old result self.new }
    {
        match behind_word(rest, Keyword::ElseIf) {
            Some(behind) => self.colon_elseif_step(count, behind),
            None => match behind_word(rest, Keyword::Else) {
                Some(behind) => self.colon_else_step(count, behind),
                None => self.colon_arm_end(count, rest),
            },
        }
    }

    /// Behind a statement of an `else` in the form with `:`.
    pub(crate) fn colon_else_end_step<'a>(
        &mut self,
        count: usize,
        rest: &'a [Token],
    ) -> Result<Step<'a>, NoMemory>
        ensures { Moves (machine.colon_else_end_move count self.old.frames (terminals_of rest.now))
            self.old result self.new }
    {
        let Some(behind) = behind_word(rest, Keyword::EndIf) else {
            return self.enter(Frame::ColonElse(count), Focus::Begin, rest);
        };
        let done = self.maker.end_if(self.alloc, count, true)?;
        Ok(jump(done, behind))
    }
}
