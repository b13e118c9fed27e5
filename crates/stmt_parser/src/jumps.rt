//! Statements of a word and a semicolon, `return`, `include` and `exit`.

ghost use Rattle.std.specs.Prelude.{true};
ghost use Rattle.expr_parser.specs.Heads.{terminals_of};
ghost use Rattle.stmt_machine.specs.Actions.{break_action, continue_action, exit_action};
ghost use Rattle.stmt_machine.specs.Machine as machine;
ghost use Rattle.stmt_parser.specs.Nexts.{included_next};
ghost use Rattle.stmt_parser.specs.Outcomes.{Moves};

use crate::begins::Last;
use crate::reader::Reader;
use crate::reads::End;
use crate::step::{Step, gone, jump};
use expr_parser::head::{behind_sign, text_at};
use php_syntax::token::{Sign, Token};
use stmt_machine::frame::Focus;
use text_base::NoMemory;

impl Reader {
    /// Behind `break`.
    pub(crate) fn break_step<'a>(&mut self, rest: &'a [Token]) -> Result<Step<'a>, NoMemory>
        ensures { Moves (machine.jump_move break_action self.old.frames (terminals_of rest.now))
            self.old result self.new }
    {
        let done = self.maker.break_off()?;
        Ok(jump(done, rest))
    }

    /// Behind `continue`.
    pub(crate) fn continue_step<'a>(&mut self, rest: &'a [Token]) -> Result<Step<'a>, NoMemory>
        ensures { Moves (machine.jump_move continue_action self.old.frames (terminals_of rest.now))
            self.old result self.new }
    {
        let done = self.maker.go_on()?;
        Ok(jump(done, rest))
    }

    /// Behind `return`.
    pub(crate) fn return_step<'a>(&mut self, rest: &'a [Token]) -> Result<Step<'a>, NoMemory>
        ensures { Moves (machine.return_move self.old.frames (terminals_of rest.now))
            self.old result self.new }
    {
        let Some(behind) = behind_sign(rest, Sign::Semicolon) else {
            return self.value_step(Last::Return, rest);
        };
        let done = self.maker.give_back(false)?;
        Ok(gone(done, Focus::Behind, behind))
    }

    // Behind the bracket of an `include`.
    fn included_step<'a>(&mut self, rest: &'a [Token]) -> Result<Step<'a>, NoMemory>
        ensures { Moves (included_next self.old.frames (terminals_of rest.now))
            self.old result self.new }
    {
        let Some((path, behind)) = text_at(rest) else {
            return Ok(Step::Stuck(rest));
        };
        let Some(last) = behind_sign(behind, Sign::CloseParen) else {
            return Ok(Step::Stuck(behind));
        };
        let done = self.maker.include(self.alloc, path)?;
        Ok(jump(done, last))
    }

    /// Behind `include` or `require`.
    pub(crate) fn include_step<'a>(&mut self, rest: &'a [Token]) -> Result<Step<'a>, NoMemory>
        ensures { Moves (machine.include_move self.old.frames (terminals_of rest.now))
            self.old result self.new }
    {
        match text_at(rest) {
            Some((path, behind)) => {
                let done = self.maker.include(self.alloc, path)?;
                Ok(jump(done, behind))
            }
            None => match behind_sign(rest, Sign::OpenParen) {
                Some(inner) => self.included_step(inner),
                None => Ok(Step::Stuck(rest)),
            },
        }
    }

    // Behind the bracket of an `exit`.
    fn exit_parens_step<'a>(&mut self, rest: &'a [Token]) -> Result<Step<'a>, NoMemory>
        ensures { Moves (machine.exit_parens_move self.old.frames (terminals_of rest.now))
            self.old result self.new }
    {
        let Some(behind) = behind_sign(rest, Sign::CloseParen) else {
            return self.argument_step(rest);
        };
        let done = self.maker.quit(false)?;
        Ok(jump(done, behind))
    }

    // The argument of an `exit`, behind its bracket.
    fn argument_step<'a>(&mut self, rest: &'a [Token]) -> Result<Step<'a>, NoMemory>
        ensures { Moves (machine.value_move (exit_action true) self.old.frames
            (machine.argument_at (terminals_of rest.now))) self.old result self.new }
    {
        let Some(behind) = self.read_ended(End::BracketSemicolon, rest)? else {
            return Ok(Step::Stuck(rest));
        };
        let done = self.maker.quit(true)?;
        Ok(gone(done, Focus::Behind, behind))
    }

    /// Behind `exit` or `die`.
    pub(crate) fn exit_step<'a>(&mut self, rest: &'a [Token]) -> Result<Step<'a>, NoMemory>
        ensures { Moves (machine.exit_move self.old.frames (terminals_of rest.now))
            self.old result self.new }
    {
        match behind_sign(rest, Sign::OpenParen) {
            Some(inner) => self.exit_parens_step(inner),
            None => {
                let done = self.maker.quit(false)?;
                Ok(jump(done, rest))
            }
        }
    }
}
