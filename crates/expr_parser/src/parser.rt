//! A whole run of the machine.

ghost use Rattle.std.specs.Prelude.{◌≡◌, Some, None, IfOk, MatchOption};
ghost use Rattle.expr_machine.specs.Machine as machine;
ghost use Rattle.expr_machine.specs.Reading.{reads_expr};
ghost use Rattle.expr_builder.specs.Views.{plain_values};
ghost use Rattle.expr_parser.specs.Heads.{terminals_of};
ghost use Rattle.expr_parser.specs.Outcomes.{Moves};

use crate::places::Place;
use crate::reader::Reader;
use crate::step::Step;
use expr_builder::values::Values;
use expr_machine::frame::Focus;
use expr_machine::laws::{moves_get_lighter, runs_go_on};
use php_syntax::token::Token;
use std::alloc::Global;
use text_base::NoMemory;

impl Reader {
    // One move.
    fn next<'a>(&mut self, focus: Focus, rest: &'a [Token]) -> Result<Step<'a>, NoMemory>
        ensures { Moves result self.new (machine.move focus self.old (terminals_of rest.now)) }
    {
        match focus {
            Focus::Begin => self.begin(rest),
            Focus::Place { name, keys, gap } => self.place(Place { name, keys, gap }, rest),
            Focus::Subscripted => self.subscripted(rest),
            Focus::Unary => self.unary(rest),
            Focus::Operand(level) => self.level(level, rest),
            Focus::Chain => self.coalesce(rest),
            Focus::Coalesced => self.choice(rest),
            Focus::Whole => self.whole(rest),
        }
    }
}

/// Reads the longest expression at the front of tokens, makes its value, and answers the tokens
/// behind it; or nothing where no expression stands there, or one that breaks a rule of the
/// language. Then the values are of no use, but for how many tokens were left at the first one that
/// nothing goes on with.
pub fn read_expr<'a>(
    alloc: Global,
    rest: &'a [Token],
    values: &mut Values,
) -> Result<Option<&'a [Token]>, NoMemory>
    ensures { IfOk result (λ found. MatchOption found
        (reads_expr (terminals_of rest.now) (plain_values values.old) ≡ None)
        (λ r. reads_expr (terminals_of rest.now) (plain_values values.old)
        ≡ Some (plain_values values.new, terminals_of r.now))) }
{
    moves_get_lighter();
    runs_go_on();
    let mut reader = Reader::new(alloc);
    let mut focus = Focus::Begin;
    let mut left = rest;
    'moves: loop {
        let place = reader.passed(focus, left);
        match reader.next(place, left)? {
            Step::Stuck(from) => {
                values.reach(from.len());
                return Ok(None);
            }
            Step::Finished => {
                values.reach(left.len());
                return Ok(Some(left));
            }
            Step::Go(next, behind, actions) => {
                let fine = values.perform(alloc, actions)?;
                if !fine {
                    values.reach(left.len());
                    return Ok(None);
                }
                focus = next;
                left = behind;
            }
        }
    }
}
