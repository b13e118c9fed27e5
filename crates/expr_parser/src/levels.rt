//! Past the levels of operators that nothing is of.

ghost use Rattle.std.specs.Prelude.{◌≡◌, ◌==◌};
ghost use Rattle.expr_machine.specs.declared.frame.Focus.TheVariants as focus;
ghost use Rattle.expr_machine.specs.Machine as machine;
ghost use Rattle.expr_parser.specs.Heads.{terminals_of};
ghost use Rattle.expr_parser.specs.Leads.{Leads};

use crate::operands::{looser, operator_next};
use crate::reader::Reader;
use expr_machine::frame::Focus;
use expr_machine::laws::runs_go_on;
use php_syntax::token::Token;
use script_grammar::operator::{Level, level_rank};

impl Reader {
    // The first level, from this one on, that the last thing begun or the next sign is of; behind
    // all levels, if none is.
    fn climb(&self, level: Level, rest: &[Token]) -> Focus
        ensures { Leads (focus.Operand level) result self.now (terminals_of rest.now) }
    {
        runs_go_on();
        let wanted = self.wanted_rank();
        let mut level = level;
        'levels: loop {
            if wanted == level_rank(level) {
                return Focus::Operand(level);
            }
            if operator_next(level, rest).is_some() {
                return Focus::Operand(level);
            }
            match looser(level) {
                Focus::Operand(next) => level = next,
                other => return other,
            }
        }
    }

    /// A place that leads to the same, past the levels of operators that nothing is of.
    pub(crate) fn passed(&self, focus: Focus, rest: &[Token]) -> Focus
        ensures { Leads focus result self.now (terminals_of rest.now) }
    {
        match focus {
            Focus::Operand(level) => self.climb(level, rest),
            other => other,
        }
    }
}
