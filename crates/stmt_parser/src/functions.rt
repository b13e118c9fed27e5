//! The parts of a file, and how a function begins and ends.

ghost use Rattle.std.specs.Prelude.{◌≡◌, []};
ghost use Rattle.expr_parser.specs.Heads.{terminals_of};
ghost use Rattle.stmt_machine.specs.Machine as machine;
ghost use Rattle.stmt_parser.specs.Outcomes.{Moves};

use crate::heads::behind_word;
use crate::reader::Reader;
use crate::step::{Step, gone};
use expr_parser::head::{behind_sign, head_at, name_at};
use php_syntax::token::{Sign, Token};
use script_grammar::keyword::Keyword;
use stmt_machine::frame::{Focus, Frame};
use text_base::NoMemory;

impl Reader {
    // Behind `function`.
    fn function_step<'a>(&mut self, rest: &'a [Token]) -> Result<Step<'a>, NoMemory>
        requires { self.old.frames ≡ [] }
        ensures { Moves (machine.function_move (terminals_of rest.now)) self.old result self.new }
    {
        let Some((name, behind)) = name_at(rest) else {
            return Ok(Step::Stuck(rest));
        };
        let Some(inner) = behind_sign(behind, Sign::OpenParen) else {
            return Ok(Step::Stuck(behind));
        };
        self.maker.begin_function(self.alloc, name)?;
        Ok(Step::Go(Focus::Parameters, inner))
    }

    /// Between the parts of a file, where nothing is begun.
    pub(crate) fn part_step<'a>(&mut self, rest: &'a [Token]) -> Result<Step<'a>, NoMemory>
        requires { self.old.frames ≡ [] }
        ensures { Moves (machine.part_move (terminals_of rest.now)) self.old result self.new }
    {
        match head_at(rest) {
            None => Ok(Step::Finished),
            Some(_) => match behind_word(rest, Keyword::Function) {
                Some(behind) => self.function_step(behind),
                None => Ok(Step::Go(Focus::Begin, rest)),
            },
        }
    }

    // Behind the parameters of a function.
    fn function_body_step<'a>(&mut self, rest: &'a [Token]) -> Result<Step<'a>, NoMemory>
        ensures { Moves (machine.function_body_move self.old.frames (terminals_of rest.now))
            self.old result self.new }
    {
        let Some(behind) = behind_sign(rest, Sign::OpenBrace) else {
            return Ok(Step::Stuck(rest));
        };
        self.maker.begin_body(self.alloc)?;
        self.enter(Frame::Function, Focus::Behind, behind)
    }

    /// Where the parameters of a function begin.
    pub(crate) fn parameters_step<'a>(&mut self, rest: &'a [Token]) -> Result<Step<'a>, NoMemory>
        ensures { Moves (machine.parameters_move self.old.frames (terminals_of rest.now))
            self.old result self.new }
    {
        match behind_sign(rest, Sign::CloseParen) {
            Some(behind) => self.function_body_step(behind),
            None => Ok(Step::Go(Focus::Parameter, rest)),
        }
    }

    /// Behind a parameter.
    pub(crate) fn parameter_end_step<'a>(&mut self, rest: &'a [Token]) -> Result<Step<'a>, NoMemory>
        ensures { Moves (machine.parameter_end_move self.old.frames (terminals_of rest.now))
            self.old result self.new }
    {
        match behind_sign(rest, Sign::CloseParen) {
            Some(behind) => self.function_body_step(behind),
            None => match behind_sign(rest, Sign::Comma) {
                Some(behind) => Ok(Step::Go(Focus::Parameter, behind)),
                None => Ok(Step::Stuck(rest)),
            },
        }
    }

    /// In the body of a function.
    pub(crate) fn function_end_step<'a>(&mut self, rest: &'a [Token]) -> Result<Step<'a>, NoMemory>
        ensures { Moves (machine.function_end_move self.old.frames (terminals_of rest.now))
            self.old result self.new }
    {
        let Some(behind) = behind_sign(rest, Sign::CloseBrace) else {
            return self.enter(Frame::Function, Focus::Begin, rest);
        };
        let done = self.maker.end_function(self.alloc)?;
        Ok(gone(done, Focus::Behind, behind))
    }
}
