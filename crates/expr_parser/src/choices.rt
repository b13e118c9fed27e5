//! The moves behind chains of `||` and of `??`.

ghost use Rattle.expr_machine.specs.Machine as machine;
ghost use Rattle.expr_parser.specs.Heads.{terminals_of};
ghost use Rattle.expr_parser.specs.Outcomes.{Moves};

use crate::head::behind_sign;
use crate::reader::{Reader, Waiting};
use crate::step::Step;
use expr_builder::action::{Action, Actions};
use expr_machine::frame::{Focus, Frame};
use php_syntax::token::{Sign, Token};
use text_base::NoMemory;

impl Reader {
    /// Behind a chain of `||`.
    pub(crate) fn coalesce<'a>(&mut self, rest: &'a [Token]) -> Result<Step<'a>, NoMemory>
        ensures { Moves result self.new (machine.coalesce_move self.old (terminals_of rest.now)) }
    {
        match behind_sign(rest, Sign::Coalesce) {
            Some(behind) => self.open(Frame::Coalesce, behind),
            None => Ok(Step::Go(Focus::Coalesced, rest, Actions::Nothing)),
        }
    }

    // Behind a condition.
    fn question<'a>(&mut self, rest: &'a [Token]) -> Result<Step<'a>, NoMemory>
        ensures { Moves result self.new (machine.question_move self.old (terminals_of rest.now)) }
    {
        match behind_sign(rest, Sign::Question) {
            None => Ok(Step::Go(Focus::Whole, rest, Actions::Nothing)),
            Some(behind) => match behind_sign(behind, Sign::Colon) {
                Some(last) => self.open(Frame::ShortChoice, last),
                None => self.open(Frame::Middle, behind),
            },
        }
    }

    /// Behind a chain of `??`.
    pub(crate) fn choice<'a>(&mut self, rest: &'a [Token]) -> Result<Step<'a>, NoMemory>
        ensures { Moves result self.new (machine.choice_move self.old (terminals_of rest.now)) }
    {
        match self.waiting() {
            Waiting::Coalesce => {
                self.drop_top();
                Ok(Step::Go(Focus::Coalesced, rest, Actions::One(Action::Coalesce)))
            }
            Waiting::ShortChoice => {
                self.drop_top();
                Ok(Step::Go(Focus::Whole, rest, Actions::One(Action::ShortChoice)))
            }
            Waiting::FullChoice => {
                self.drop_top();
                Ok(Step::Go(Focus::Whole, rest, Actions::One(Action::FullChoice)))
            }
            _ => self.question(rest),
        }
    }

    /// Behind the value where a condition is true.
    pub(crate) fn middle<'a>(&mut self, rest: &'a [Token]) -> Result<Step<'a>, NoMemory>
        ensures { Moves result self.new (machine.middle_move self.old (terminals_of rest.now)) }
    {
        match behind_sign(rest, Sign::Colon) {
            None => Ok(Step::Stuck(rest)),
            Some(behind) => self.open(Frame::FullChoice, behind),
        }
    }
}
