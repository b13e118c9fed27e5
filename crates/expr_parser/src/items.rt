//! The moves in an array.

ghost use Rattle.std.specs.Prelude.{◌≡◌, ◌∷◌, []};
ghost use Rattle.php_syntax.specs.declared.token.Sign.TheVariants as signs;
ghost use Rattle.script_grammar.specs.Terminals.{sign_terminal};
ghost use Rattle.expr_machine.specs.declared.frame.Focus.TheVariants as focus;
ghost use Rattle.expr_machine.specs.Machine as machine;
ghost use Rattle.expr_machine.specs.Machine.{moves, item_actions};
ghost use Rattle.expr_parser.specs.Heads.{terminals_of};
ghost use Rattle.expr_parser.specs.Outcomes.{Moves};

use crate::head::{behind_first, behind_sign, sign_at};
use crate::reader::Reader;
use crate::step::{Step, one_more};
use expr_builder::action::{Action, Actions};
use expr_machine::frame::{Brackets, Focus, Frame};
use php_syntax::token::{Sign, Token};
use text_base::NoMemory;

// Whether a sign closes the brackets of an array.
fn closes(brackets: Brackets, sign: Sign) -> bool
    ensures { result ≡ machine.closes brackets sign }
{
    match brackets {
        Brackets::Round => match sign {
            Sign::CloseParen => true,
            _ => false,
        },
        Brackets::Square => match sign {
            Sign::CloseBracket => true,
            _ => false,
        },
    }
}

// Whether the brackets of an array are closed next.
fn closed_next(brackets: Brackets, rest: &[Token]) -> bool
    ensures { result ≡ machine.closed_next brackets (terminals_of rest.now) }
{
    match sign_at(rest) {
        None => false,
        Some((sign, _)) => closes(brackets, sign),
    }
}

impl Reader {
    /// The first item of an array, or its end.
    pub(crate) fn array<'a>(
        &mut self,
        brackets: Brackets,
        rest: &'a [Token],
    ) -> Result<Step<'a>, NoMemory>
        ensures { Moves result self.new
            (machine.array_move brackets self.old (terminals_of rest.now)) }
    {
        if closed_next(brackets, rest) {
            return Ok(Step::Go(
                Focus::Unary,
                behind_first(rest),
                Actions::One(Action::Array(0)),
            ));
        }
        self.open(Frame::Item { brackets, count: 0 }, rest)
    }

    // Behind an item of an array and a comma: the end, or the next item.
    fn behind_comma<'a>(
        &mut self,
        brackets: Brackets,
        keyed: bool,
        count: usize,
        rest: &'a [Token],
    ) -> Result<Step<'a>, NoMemory>
        ensures { Moves result self.new
            (machine.next_item_move brackets keyed count self.old
            (sign_terminal signs.Comma ∷ terminals_of rest.now)) }
    {
        let count = one_more(count)?;
        if closed_next(brackets, rest) {
            return Ok(Step::Go(
                Focus::Unary,
                behind_first(rest),
                Actions::Items { keyed, count },
            ));
        }
        self.begin_item(Frame::Item { brackets, count }, keyed, rest)
    }

    // The next item of an array, behind one with a key or not.
    fn begin_item<'a>(
        &mut self,
        frame: Frame,
        keyed: bool,
        rest: &'a [Token],
    ) -> Result<Step<'a>, NoMemory>
        ensures { Moves result self.new
            (moves focus.Begin (frame ∷ self.old) (terminals_of rest.now) (item_actions keyed [])) }
    {
        self.push(frame)?;
        Ok(Step::Go(Focus::Begin, rest, Actions::Item { keyed }))
    }

    /// Behind an item of an array: its end, with a comma before it or not, or the next item.
    pub(crate) fn item_end<'a>(
        &mut self,
        brackets: Brackets,
        keyed: bool,
        count: usize,
        rest: &'a [Token],
    ) -> Result<Step<'a>, NoMemory>
        ensures { Moves result self.new
            (machine.item_end_move brackets keyed count self.old (terminals_of rest.now)) }
    {
        if closed_next(brackets, rest) {
            let count = one_more(count)?;
            return Ok(Step::Go(
                Focus::Unary,
                behind_first(rest),
                Actions::Items { keyed, count },
            ));
        }
        match behind_sign(rest, Sign::Comma) {
            None => Ok(Step::Stuck(rest)),
            Some(behind) => self.behind_comma(brackets, keyed, count, behind),
        }
    }

    /// Behind an item of an array, or its key.
    pub(crate) fn item<'a>(
        &mut self,
        brackets: Brackets,
        count: usize,
        rest: &'a [Token],
    ) -> Result<Step<'a>, NoMemory>
        ensures { Moves result self.new
            (machine.item_move brackets count self.old (terminals_of rest.now)) }
    {
        match behind_sign(rest, Sign::DoubleArrow) {
            None => self.item_end(brackets, false, count, rest),
            Some(behind) => self.open(Frame::KeyedItem { brackets, count }, behind),
        }
    }
}
