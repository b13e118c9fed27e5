//! Rows of expressions with commas between them, and the condition of a `for`.

ghost use Rattle.std.specs.Prelude.{◌≡◌, ◌==◌, true, false, MatchOption};
ghost use Rattle.expr_machine.specs.Machine.{behind};
ghost use Rattle.expr_machine.specs.Reading.{expr_at};
ghost use Rattle.expr_parser.specs.Heads.{terminals_of};
ghost use Rattle.stmt_machine.specs.Machine as machine;
ghost use Rattle.stmt_parser.specs.Outcomes.{Moves};

use crate::reader::Reader;
use crate::reads::End;
use crate::step::{Step, gone, one_more};
use expr_parser::head::behind_sign;
use php_syntax::token::{Sign, Token};
use stmt_machine::frame::{Focus, Loop, Row};
use text_base::NoMemory;

// What stands behind the end of a row, if it ends here.
fn row_end<'a>(row: &Row, rest: &'a [Token]) -> Option<&'a [Token]>
    ensures { MatchOption result
        (machine.row_end_next row.now (terminals_of rest.now) ≡ false)
        (λ last. (machine.row_end_next row.now (terminals_of rest.now) ≡ true) ×
        (behind (terminals_of rest.now) ≡ terminals_of last.now)) }
{
    match row {
        Row::Echo => behind_sign(rest, Sign::Semicolon),
        Row::Begin => behind_sign(rest, Sign::Semicolon),
        Row::Next { .. } => behind_sign(rest, Sign::CloseParen),
    }
}

// Whether a count is 0.
fn is_zero(count: usize) -> bool
    ensures { result ≡ (count == 0) }
{
    count == 0
}

impl Reader {
    /// One more expression of a row, which has then so many.
    pub(crate) fn listed_step<'a>(
        &mut self,
        row: Row,
        count: usize,
        rest: &'a [Token],
    ) -> Result<Step<'a>, NoMemory>
        ensures { Moves (machine.listed_move row count self.old.frames
            (expr_at (terminals_of rest.now))) self.old result self.new }
    {
        let Some(behind) = self.read_value(rest)? else {
            return Ok(Step::Stuck(rest));
        };
        Ok(Step::Go(Focus::Listed { row, count }, behind))
    }

    /// Where a row that may be empty begins.
    pub(crate) fn start_step<'a>(
        &mut self,
        row: Row,
        rest: &'a [Token],
    ) -> Result<Step<'a>, NoMemory>
        ensures { Moves (machine.start_move row self.old.frames (terminals_of rest.now))
            self.old result self.new }
    {
        match row_end(&row, rest) {
            Some(_) => Ok(Step::Go(Focus::Listed { row, count: 0 }, rest)),
            None => self.listed_step(row, 1, rest),
        }
    }

    // Behind the end of a row of so many expressions.
    fn row_end_step<'a>(
        &mut self,
        row: Row,
        count: usize,
        rest: &'a [Token],
    ) -> Result<Step<'a>, NoMemory>
        ensures { Moves (machine.row_end_move row count self.old.frames (terminals_of rest.now))
            self.old result self.new }
    {
        match row {
            Row::Echo => {
                let done = self.maker.echo(self.alloc, count)?;
                Ok(gone(done, Focus::Behind, rest))
            }
            Row::Begin => Ok(Step::Go(Focus::Condition(count), rest)),
            Row::Next { begin, condition } => {
                let of = Loop::For {
                    begin,
                    condition,
                    next: count,
                };
                self.body_step(of, rest)
            }
        }
    }

    // One more expression, where there is one before.
    fn more_step<'a>(
        &mut self,
        row: Row,
        count: usize,
        rest: &'a [Token],
    ) -> Result<Step<'a>, NoMemory>
        ensures { Moves (machine.more_move row count self.old.frames (terminals_of rest.now))
            self.old result self.new }
    {
        let Some(behind) = behind_sign(rest, Sign::Comma) else {
            return Ok(Step::Stuck(rest));
        };
        if is_zero(count) {
            return Ok(Step::Stuck(rest));
        }
        let more = one_more(count)?;
        self.listed_step(row, more, behind)
    }

    /// Behind so many expressions of a row.
    pub(crate) fn row_step<'a>(
        &mut self,
        row: Row,
        count: usize,
        rest: &'a [Token],
    ) -> Result<Step<'a>, NoMemory>
        ensures { Moves (machine.row_move row count self.old.frames (terminals_of rest.now))
            self.old result self.new }
    {
        match row_end(&row, rest) {
            Some(last) => self.row_end_step(row, count, last),
            None => self.more_step(row, count, rest),
        }
    }

    /// Where the condition of a `for` with so many expressions that begin it stands, or none.
    pub(crate) fn condition_step<'a>(
        &mut self,
        begin: usize,
        rest: &'a [Token],
    ) -> Result<Step<'a>, NoMemory>
        ensures { Moves (machine.condition_move begin self.old.frames (terminals_of rest.now))
            self.old result self.new }
    {
        if let Some(behind) = behind_sign(rest, Sign::Semicolon) {
            let row = Row::Next {
                begin,
                condition: false,
            };
            return Ok(Step::Go(Focus::Start(row), behind));
        }
        let Some(behind) = self.read_ended(End::Semicolon, rest)? else {
            return Ok(Step::Stuck(rest));
        };
        let row = Row::Next {
            begin,
            condition: true,
        };
        Ok(Step::Go(Focus::Start(row), behind))
    }
}
