//! The moves behind operands.

ghost use Rattle.std.specs.Prelude.{◌≡◌, if◌then◌else◌};
ghost use Rattle.script_grammar.specs.Operators as operator;
ghost use Rattle.expr_machine.specs.declared.frame.Focus.TheVariants as focus;
ghost use Rattle.expr_machine.specs.Machine as machine;
ghost use Rattle.expr_parser.specs.Heads.{terminals_of};
ghost use Rattle.expr_parser.specs.Outcomes.{Moves};

use crate::head::{behind_first, behind_sign, sign_at};
use crate::reader::{Reader, Waiting};
use crate::step::{Step, one_more};
use expr_builder::action::{Action, Actions};
use expr_machine::frame::{Focus, Frame};
use php_syntax::token::{Sign, Token};
use script_grammar::operator::{Level, Operator, binary_of, is_repeating, level_rank};
use text_base::NoMemory;

// The operator of a level, if one stands next.
pub(crate) fn operator_next(level: Level, rest: &[Token]) -> Option<Operator>
    ensures { result ≡ machine.operator_next level (terminals_of rest.now) }
{
    match sign_at(rest) {
        None => None,
        Some((sign, _)) => operator_of(level, sign),
    }
}

// The operator of a level that a sign is, if it is one.
fn operator_of(level: Level, sign: Sign) -> Option<Operator>
    ensures { result ≡ machine.of_level level (operator.binary_operator sign) }
{
    match binary_of(sign) {
        None => None,
        Some((found, operator)) => {
            if level_rank(found) == level_rank(level) {
                return Some(operator);
            }
            None
        }
    }
}

// Where a whole chain of a level leads.
pub(crate) fn looser(level: Level) -> Focus
    ensures { result ≡ machine.looser level }
{
    match level {
        Level::Product => Focus::Operand(Level::Sum),
        Level::Sum => Focus::Operand(Level::Join),
        Level::Join => Focus::Operand(Level::Order),
        Level::Order => Focus::Operand(Level::Equality),
        Level::Equality => Focus::Operand(Level::And),
        Level::And => Focus::Operand(Level::Or),
        Level::Or => Focus::Chain,
    }
}

// What is begun by the first operator of a chain of a level.
fn begun_frame(level: Level, operator: Operator) -> Frame
    ensures { result ≡ machine.begun_frame level operator }
{
    match level {
        Level::Join => Frame::Join(1),
        Level::Product => Frame::Operator(Level::Product, operator),
        Level::Sum => Frame::Operator(Level::Sum, operator),
        Level::Order => Frame::Operator(Level::Order, operator),
        Level::Equality => Frame::Operator(Level::Equality, operator),
        Level::And => Frame::Operator(Level::And, operator),
        Level::Or => Frame::Operator(Level::Or, operator),
    }
}

// Where the right operand of an operator of a level leads.
fn behind_right(level: Level) -> Focus
    ensures { result ≡ (if operator.repeats level then focus.Operand level else machine.looser
        level) }
{
    if is_repeating(level) {
        return Focus::Operand(level);
    }
    looser(level)
}

impl Reader {
    /// Behind a value that subscripts may follow.
    pub(crate) fn subscripted<'a>(&mut self, rest: &'a [Token]) -> Result<Step<'a>, NoMemory>
        ensures { Moves result self.new
            (machine.subscripted_move self.old (terminals_of rest.now)) }
    {
        match behind_sign(rest, Sign::OpenBracket) {
            Some(behind) => self.open(Frame::Subscript, behind),
            None => Ok(Step::Go(Focus::Unary, rest, Actions::Nothing)),
        }
    }

    /// Behind a unary operand.
    pub(crate) fn unary<'a>(&mut self, rest: &'a [Token]) -> Result<Step<'a>, NoMemory>
        ensures { Moves result self.new (machine.unary_move self.old (terminals_of rest.now)) }
    {
        match self.waiting() {
            Waiting::Prefix(prefix) => {
                self.drop_top();
                Ok(Step::Go(Focus::Unary, rest, Actions::One(Action::Prefix(prefix))))
            }
            _ => Ok(Step::Go(Focus::Operand(Level::Product), rest, Actions::Nothing)),
        }
    }

    // Behind an operand that begins a chain of its level, or goes on with one that leans left.
    fn chain<'a>(
        &mut self,
        operator: Option<Operator>,
        level: Level,
        rest: &'a [Token],
    ) -> Result<Step<'a>, NoMemory>
        ensures { Moves result self.new
            (machine.chain_move operator level self.old (terminals_of rest.now)) }
    {
        match operator {
            Some(operator) => self.open(begun_frame(level, operator), behind_first(rest)),
            None => Ok(Step::Go(looser(level), rest, Actions::Nothing)),
        }
    }

    // Behind the last operand so far of a chain of `.`.
    fn join<'a>(
        &mut self,
        operator: Option<Operator>,
        count: usize,
        rest: &'a [Token],
    ) -> Result<Step<'a>, NoMemory>
        ensures { Moves result self.new
            (machine.join_move operator count self.old (terminals_of rest.now)) }
    {
        let count = one_more(count)?;
        match operator {
            Some(_) => self.open(Frame::Join(count), behind_first(rest)),
            None => Ok(Step::Go(looser(Level::Join), rest, Actions::One(Action::Join(count)))),
        }
    }

    // Behind the right operand of an operator.
    fn right<'a>(&mut self, level: Level, rest: &'a [Token]) -> Result<Step<'a>, NoMemory>
        ensures { Moves result self.new
            (machine.right_move level self.old (terminals_of rest.now)) }
    {
        match self.waiting() {
            Waiting::Operator(before, operator) => {
                self.drop_top();
                Ok(Step::Go(
                    behind_right(before),
                    rest,
                    Actions::One(Action::Binary(operator)),
                ))
            }
            Waiting::Join(count) => {
                self.drop_top();
                self.join(operator_next(Level::Join, rest), count, rest)
            }
            _ => Ok(Step::Stuck(rest)),
        }
    }

    /// Behind an operand of a level.
    pub(crate) fn level<'a>(
        &mut self,
        level: Level,
        rest: &'a [Token],
    ) -> Result<Step<'a>, NoMemory>
        ensures { Moves result self.new
            (machine.level_move level self.old (terminals_of rest.now)) }
    {
        if self.wanted_rank() == level_rank(level) {
            return self.right(level, rest);
        }
        self.chain(operator_next(level, rest), level, rest)
    }
}
