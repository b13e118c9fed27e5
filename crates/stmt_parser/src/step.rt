//! What a move of the machine leads to.

ghost use Rattle.std.specs.Prelude.{◌≡◌, ◌+◌, List, IfOk};
ghost use Rattle.stmt_machine.specs.declared.frame.Frame.{Frame};
ghost use Rattle.stmt_machine.specs.Made.{Made};
ghost use Rattle.expr_parser.specs.Heads.{terminals_of};
ghost use Rattle.stmt_parser.specs.Outcomes.{seen, gone_if, jump_if};

use expr_parser::head::behind_sign;
use php_syntax::token::{Sign, Token};
use stmt_machine::frame::Focus;
use text_base::NoMemory;

/// Where a move leads.
#[derive(Debug, Drop)]
pub(crate) enum Step<'a> {
    /// To another place, with these tokens left to read.
    Go(Focus, &'a [Token]),
    /// The whole file was read.
    Finished,
    /// No file goes on so: the tokens from the first that nothing goes on with, or fewer where an
    /// expression went on.
    Stuck(&'a [Token]),
}

/// On to another place, where an action was done.
pub(crate) fn gone<'a>(done: bool, focus: Focus, rest: &'a [Token]) -> Step<'a>
    ensures { (fs : List Frame) (m : Made) → gone_if done focus fs (terminals_of rest.now) m
        ≡ seen result fs m }
{
    if done {
        return Step::Go(focus, rest);
    }
    Step::Stuck(rest)
}

/// On behind a semicolon, where an action was done.
pub(crate) fn jump<'a>(done: bool, rest: &'a [Token]) -> Step<'a>
    ensures { (fs : List Frame) (m : Made) → jump_if done fs (terminals_of rest.now) m
        ≡ seen result fs m }
{
    match behind_sign(rest, Sign::Semicolon) {
        None => Step::Stuck(rest),
        Some(behind) => gone(done, Focus::Behind, behind),
    }
}

/// One more than a count. No row is so long that there is none.
pub(crate) fn one_more(count: usize) -> Result<usize, NoMemory>
    ensures { IfOk result (λ n. n ≡ count + 1) }
{
    match count.checked_add(1) {
        Some(more) => Ok(more),
        None => Err(NoMemory),
    }
}
