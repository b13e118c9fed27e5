//! What a move of the machine leads to.

ghost use Rattle.std.specs.Prelude.{◌≡◌, ◌+◌, ◌==◌, IfOk};

use expr_builder::action::Actions;
use expr_machine::frame::Focus;
use php_syntax::token::Token;
use text_base::NoMemory;

/// Where a move leads.
#[derive(Drop)]
pub(crate) enum Step<'a> {
    /// To another place, with these tokens left to read, and what is done with the values.
    Go(Focus, &'a [Token], Actions<'a>),
    /// A whole expression was read.
    Finished,
    /// No expression goes on so: the tokens from the first that nothing goes on with.
    Stuck(&'a [Token]),
}

/// One more than a count. No row is so long that there is none.
pub(crate) fn one_more(count: usize) -> Result<usize, NoMemory>
    ensures { IfOk result (λ n. n ≡ count + 1) }
{
    match count.checked_add(1) {
        Some(more) => Ok(more),
        None => Err(NoMemory),
    }
}

/// Whether a count is 0.
pub(crate) fn is_zero(count: usize) -> bool
    ensures { result ≡ (count == 0) }
{
    count == 0
}
