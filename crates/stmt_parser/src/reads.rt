//! Expressions between other things, whose values are made.

ghost use Rattle.std.specs.Prelude.{◌≡◌, Some, None, MatchOption};
ghost use Rattle.expr_machine.specs.Reading.{expr_at};
ghost use Rattle.expr_parser.specs.Heads.{terminals_of};
ghost use Rattle.stmt_machine.specs.Machine.{condition_at};
ghost use Rattle.stmt_parser.specs.Ends as ends;
ghost use Rattle.stmt_parser.specs.Outcomes.{Reads};

use crate::reader::Reader;
use expr_parser::head::behind_sign;
use expr_parser::parser::read_expr;
use php_syntax::token::{Sign, Token};
use text_base::NoMemory;

/// The signs behind an expression.
#[derive(Clone, Copy, Debug, PartialEq, Eq)]
pub(crate) enum End {
    /// `;`
    Semicolon,
    /// `)`
    Bracket,
    /// `)` and `;`
    BracketSemicolon,
}

// The tokens behind these signs, if they stand first.
fn behind_end<'a>(end: End, rest: &'a [Token]) -> Option<&'a [Token]>
    ensures { MatchOption result
        (ends.behind_end end (terminals_of rest.now) ≡ None)
        (λ last. ends.behind_end end (terminals_of rest.now) ≡ Some (terminals_of last.now)) }
{
    match end {
        End::Semicolon => behind_sign(rest, Sign::Semicolon),
        End::Bracket => behind_sign(rest, Sign::CloseParen),
        End::BracketSemicolon => {
            let Some(behind) = behind_sign(rest, Sign::CloseParen) else {
                return None;
            };
            behind_sign(behind, Sign::Semicolon)
        }
    }
}

impl Reader {
    /// Reads an expression.
    pub(crate) fn read_value<'a>(
        &mut self,
        rest: &'a [Token],
    ) -> Result<Option<&'a [Token]>, NoMemory>
        ensures { Reads (expr_at (terminals_of rest.now)) self.old result self.new }
    {
        read_expr(self.alloc, rest, &mut self.maker.values)
    }

    /// Reads an expression and the signs behind it.
    pub(crate) fn read_ended<'a>(
        &mut self,
        end: End,
        rest: &'a [Token],
    ) -> Result<Option<&'a [Token]>, NoMemory>
        ensures { Reads (ends.ended_with end (expr_at (terminals_of rest.now)))
            self.old result self.new }
    {
        let Some(behind) = self.read_value(rest)? else {
            return Ok(None);
        };
        Ok(behind_end(end, behind))
    }

    /// Reads an expression in brackets.
    pub(crate) fn read_condition<'a>(
        &mut self,
        rest: &'a [Token],
    ) -> Result<Option<&'a [Token]>, NoMemory>
        ensures { Reads (condition_at (terminals_of rest.now)) self.old result self.new }
    {
        let Some(inner) = behind_sign(rest, Sign::OpenParen) else {
            return Ok(None);
        };
        self.read_ended(End::Bracket, inner)
    }
}
