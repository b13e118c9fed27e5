//! What comes next at the head of some parts of a statement.

ghost use Rattle.std.specs.Prelude.{◌≡◌, IfOk, MatchOption};
ghost use Rattle.plain_values.specs.Plain.{Plain, empty};
ghost use Rattle.plain_values.specs.Walks.{walked};
ghost use Rattle.php_syntax.specs.Trees.{exprs_of, stmts_of, arms_of};
ghost use Rattle.script_meaning.specs.Statements.{echo, arms_in, statements};
ghost use Rattle.script_runs.specs.Frames.{looping, values_before, walking, each_value};
ghost use Rattle.script_runs.specs.Cost.{row_weight, arms_weight};
ghost use Rattle.script_runs.specs.StatementMoves.{Means};
ghost use Rattle.php_values.specs.View.{plain_of};

use crate::frames::{Flow, Looping, Next, Wait, Walking};
use php_syntax::tree::{Expr, Stmt};
use php_values::{Array, Value, Walk};
use text_base::{Bytes, NoMemory};

/// The values of an `echo` that are left.
pub(crate) fn echo_next<'a>(rest: &'a [Expr]) -> Next<'a>
    ensures { Means result (λ w. echo w (exprs_of rest.now)) (row_weight rest.now) }
{
    match rest.split_first() {
        None => Next::Left(Flow::GoesOn),
        Some((first, others)) => Next::Eval(first, Wait::Echo(others)),
    }
}

/// The arms of an `if` that are left.
pub(crate) fn arms_next<'a>(arms: &'a [(Expr, Vec<Stmt>)], otherwise: &'a Vec<Stmt>) -> Next<'a>
    ensures { Means result
        (λ w. arms_in w (arms_of arms.now) (statements w (stmts_of otherwise.now.items)))
        (arms_weight arms.now otherwise.now.items) }
{
    match arms.split_first() {
        None => Next::Block(otherwise),
        Some((arm, others)) => Next::Eval(&arm.0, Wait::Arm(&arm.1, others, otherwise)),
    }
}

/// A loop, from its test on.
pub(crate) fn loop_next<'a>(again: Looping<'a>) -> Next<'a>
    ensures { Means result (λ w. looping w again.entry) 2 }
{
    match again.test {
        None => Next::Turn(again),
        Some(test) => Next::Eval(test, Wait::Test(again)),
    }
}

/// The expressions that are left before the test of a loop.
pub(crate) fn before_loop<'a>(rest: &'a [Expr], again: Looping<'a>) -> Next<'a>
    ensures { Means result (λ w. values_before w (exprs_of rest.now) again.entry)
        (row_weight rest.now) }
{
    match rest.split_first() {
        None => loop_next(again),
        Some((first, others)) => Next::Eval(first, Wait::Before(others, again)),
    }
}

/// A walk, from its next pair on.
pub(crate) fn walk_next<'a>(walk: Walking<'a>) -> Result<Next<'a>, NoMemory>
    ensures { IfOk result (λ n. Means n (λ w. walking w walk.entry) 1) }
{
    let mut walk = walk;
    match walk.pairs.next()? {
        None => Ok(Next::Left(Flow::GoesOn)),
        Some((key, value)) => Ok(Next::Step(key, value, walk)),
    }
}

// The array that a value is, if it is one.
fn array_in(value: &Value) -> Option<&Array>
    ensures { MatchOption result (walked (plain_of value.now) ≡ empty)
        (λ a. plain_of value.now ≡ Plain.array a.now) }
{
    match value {
        Value::Array(array) => Some(array),
        Value::Null | Value::Flag(_) | Value::Int(_) | Value::Text(_) => None,
    }
}

/// A walk over a value: over none where it is no array.
pub(crate) fn walk_over<'a>(
    value: &Value,
    key: Option<&'a Bytes>,
    name: &'a Bytes,
    body: &'a Vec<Stmt>,
) -> Result<Next<'a>, NoMemory>
    ensures { IfOk result
        (λ n. Means n (λ w. each_value w key.entry name.entry body.entry (plain_of value.now)) 1) }
{
    match array_in(value) {
        None => Ok(Next::Left(Flow::GoesOn)),
        Some(array) => {
            let pairs = Walk::new(array)?;
            walk_next(Walking {
                pairs,
                key,
                value: name,
                body,
            })
        }
    }
}
