//! The moves behind whole expressions.

ghost use Rattle.std.specs.Prelude.{◌≡◌, ◌∷◌};
ghost use Rattle.expr_machine.specs.Machine as machine;
ghost use Rattle.expr_parser.specs.Heads.{terminals_of};
ghost use Rattle.expr_parser.specs.Outcomes.{Moves};

use crate::head::behind_sign;
use crate::quotes::behind_escape;
use crate::reader::Reader;
use crate::step::{Step, one_more};
use expr_builder::action::{Action, Actions};
use expr_machine::frame::{Focus, Frame};
use php_syntax::token::{Sign, Token};
use text_base::{Bytes, NoMemory};

impl Reader {
    // Behind an argument of a call.
    fn next_argument<'a>(
        &mut self,
        name: Bytes,
        count: usize,
        rest: &'a [Token],
    ) -> Result<Step<'a>, NoMemory>
        ensures { Moves result self.new
            (machine.next_argument_move name count self.old (terminals_of rest.now)) }
    {
        let count = one_more(count)?;
        if let Some(behind) = behind_sign(rest, Sign::CloseParen) {
            return Ok(Step::Go(
                Focus::Subscripted,
                behind,
                Actions::One(Action::Call(name, count)),
            ));
        }
        match behind_sign(rest, Sign::Comma) {
            None => Ok(Step::Stuck(rest)),
            Some(behind) => self.open(Frame::Argument { name, count }, behind),
        }
    }

    // Behind an argument of a call, where further arguments may say what is so anyway.
    fn argument<'a>(
        &mut self,
        name: Bytes,
        count: usize,
        rest: &'a [Token],
    ) -> Result<Step<'a>, NoMemory>
        ensures { Moves result self.new
            (machine.argument_move name count self.old (terminals_of rest.now)) }
    {
        match behind_escape(&name, count, rest) {
            None => self.next_argument(name, count, rest),
            Some(behind) => Ok(Step::Go(
                Focus::Subscripted,
                behind,
                Actions::One(Action::Call(name, 1)),
            )),
        }
    }

    // Behind an operand of `isset`.
    fn isset<'a>(&mut self, count: usize, rest: &'a [Token]) -> Result<Step<'a>, NoMemory>
        ensures { Moves result self.new
            (machine.isset_move count self.old (terminals_of rest.now)) }
    {
        let count = one_more(count)?;
        if let Some(behind) = behind_sign(rest, Sign::CloseParen) {
            return Ok(Step::Go(Focus::Unary, behind, Actions::One(Action::Isset(count))));
        }
        match behind_sign(rest, Sign::Comma) {
            None => Ok(Step::Stuck(rest)),
            Some(behind) => self.open(Frame::Isset(count), behind),
        }
    }

    // Behind a key in brackets.
    fn key_end<'a>(
        &mut self,
        name: Bytes,
        keys: usize,
        gap: bool,
        rest: &'a [Token],
    ) -> Result<Step<'a>, NoMemory>
        ensures { Moves result self.new
            (machine.key_end_move name keys gap self.old (terminals_of rest.now)) }
    {
        match behind_sign(rest, Sign::CloseBracket) {
            None => Ok(Step::Stuck(rest)),
            Some(behind) => {
                let keys = one_more(keys)?;
                Ok(Step::Go(Focus::Place { name, keys, gap }, behind, Actions::Nothing))
            }
        }
    }

    // Behind a value in brackets.
    fn subscript_end<'a>(&mut self, rest: &'a [Token]) -> Result<Step<'a>, NoMemory>
        ensures { Moves result self.new
            (machine.subscript_end_move self.old (terminals_of rest.now)) }
    {
        match behind_sign(rest, Sign::CloseBracket) {
            None => Ok(Step::Stuck(rest)),
            Some(behind) => Ok(Step::Go(Focus::Subscripted, behind, Actions::One(Action::Member))),
        }
    }

    // Behind an expression in brackets.
    fn parens_end<'a>(&mut self, rest: &'a [Token]) -> Result<Step<'a>, NoMemory>
        ensures { Moves result self.new (machine.parens_end_move self.old (terminals_of rest.now)) }
    {
        match behind_sign(rest, Sign::CloseParen) {
            None => Ok(Step::Stuck(rest)),
            Some(behind) => Ok(Step::Go(Focus::Subscripted, behind, Actions::Nothing)),
        }
    }

    // Behind the operand of `empty`.
    fn empty_end<'a>(&mut self, rest: &'a [Token]) -> Result<Step<'a>, NoMemory>
        ensures { Moves result self.new (machine.empty_end_move self.old (terminals_of rest.now)) }
    {
        match behind_sign(rest, Sign::CloseParen) {
            None => Ok(Step::Stuck(rest)),
            Some(behind) => Ok(Step::Go(Focus::Unary, behind, Actions::One(Action::Empty))),
        }
    }

    // Behind a whole expression, with what was begun last.
    fn whole_over<'a>(&mut self, frame: Frame, rest: &'a [Token]) -> Result<Step<'a>, NoMemory>
        ensures { Moves result self.new
            (machine.whole_move (frame ∷ self.old) (terminals_of rest.now)) }
    {
        match frame {
            Frame::Middle => self.middle(rest),
            Frame::Assign { name, keys } => Ok(Step::Go(
                Focus::Whole,
                rest,
                Actions::One(Action::Assign(name, keys)),
            )),
            Frame::Update { sign, name, keys } => Ok(Step::Go(
                Focus::Whole,
                rest,
                Actions::One(Action::Update(sign, name, keys)),
            )),
            Frame::Parens => self.parens_end(rest),
            Frame::Subscript => self.subscript_end(rest),
            Frame::Key { name, keys, gap } => self.key_end(name, keys, gap, rest),
            Frame::Isset(count) => self.isset(count, rest),
            Frame::Empty => self.empty_end(rest),
            Frame::Argument { name, count } => self.argument(name, count, rest),
            Frame::Item { brackets, count } => self.item(brackets, count, rest),
            Frame::KeyedItem { brackets, count } => self.item_end(brackets, true, count, rest),
            Frame::Prefix(_) => Ok(Step::Stuck(rest)),
            Frame::Operator(_, _) => Ok(Step::Stuck(rest)),
            Frame::Join(_) => Ok(Step::Stuck(rest)),
            Frame::Coalesce => Ok(Step::Stuck(rest)),
            Frame::ShortChoice => Ok(Step::Stuck(rest)),
            Frame::FullChoice => Ok(Step::Stuck(rest)),
        }
    }

    /// Behind a whole expression.
    pub(crate) fn whole<'a>(&mut self, rest: &'a [Token]) -> Result<Step<'a>, NoMemory>
        ensures { Moves result self.new (machine.whole_move self.old (terminals_of rest.now)) }
    {
        match self.pop() {
            None => Ok(Step::Finished),
            Some(frame) => self.whole_over(frame, rest),
        }
    }
}
