//! The moves that hand a value to what waits for it.

ghost use Rattle.std.specs.Prelude.{◌≡◌, false, IfOk, MatchOption};
ghost use Rattle.plain_values.specs.Plain.{Plain};
ghost use Rattle.plain_values.specs.Walks.{is_text};
ghost use Rattle.php_values.specs.View.{plain_of};
ghost use Rattle.script_runs.specs.StatementMoves.{Gives, Quits};

use crate::frames::{End, Flow, Next, Wait};
use crate::heads::{arms_next, before_loop, echo_next, walk_over};
use php_values::{Text, Value};
use plain_values::Fault;
use std::alloc::Global;
use text_base::{Bytes, NoMemory};
use value_operations::{text_of, truth};

// The text that a value is, if it is one.
fn text_in(value: &Value) -> Option<&Text>
    ensures { MatchOption result (is_text (plain_of value.now) ≡ false)
        (λ t. plain_of value.now ≡ Plain.text t.now) }
{
    match value {
        Value::Text(text) => Some(text),
        Value::Null | Value::Flag(_) | Value::Int(_) | Value::Array(_) => None,
    }
}

// Ends the run with a value, which has to be a text and is printed.
fn quit(printed: &mut Bytes, value: &Value) -> Result<End, NoMemory>
    ensures { IfOk result (λ end. Quits (plain_of value.now) printed.old end printed.new) }
{
    match text_in(value) {
        Some(text) => {
            printed.append(text.as_slice())?;
            Ok(End::Ended)
        }
        None => Ok(End::Fault(Fault::WrongType)),
    }
}

/// Hands a value to what waits for it.
pub fn give<'a>(
    alloc: Global,
    printed: &mut Bytes,
    wait: Wait<'a>,
    value: Value,
) -> Result<Next<'a>, NoMemory>
    ensures { IfOk result (λ n. Gives wait.entry (plain_of value) printed.old n printed.new) }
{
    match wait {
        Wait::Echo(rest) => {
            let text = text_of(alloc, &value)?;
            printed.append(text.as_slice())?;
            Ok(echo_next(rest))
        }
        Wait::Run => Ok(Next::Left(Flow::GoesOn)),
        Wait::Arm(body, arms, otherwise) => {
            if truth(&value) {
                Ok(Next::Block(body))
            } else {
                Ok(arms_next(arms, otherwise))
            }
        }
        Wait::Test(again) => {
            if truth(&value) {
                Ok(Next::Turn(again))
            } else {
                Ok(Next::Left(Flow::GoesOn))
            }
        }
        Wait::Before(rest, again) => Ok(before_loop(rest, again)),
        Wait::Each(key, name, body) => {
            let next = walk_over(&value, key, name, body)?;
            Ok(next)
        }
        Wait::Return => Ok(Next::Left(Flow::Returns(value))),
        Wait::Quit => {
            let end = quit(printed, &value)?;
            Ok(Next::Over(end))
        }
    }
}
