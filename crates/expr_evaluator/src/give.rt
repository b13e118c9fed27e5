//! The moves that hand a value to what waits for it.

ghost use Rattle.std.specs.Prelude.{◌≡◌, List, IfOk};
ghost use Rattle.php_syntax.specs.Trees.{PlainFunction};
ghost use Rattle.plain_values.specs.Plain.{Plain};
ghost use Rattle.php_values.specs.View.{plain_of};
ghost use Rattle.script_meaning.specs.Requests.{PlainRequest};
ghost use Rattle.expr_evaluator.specs.Moves.{Takes};

use crate::evaluator::Evaluator;
use crate::frame::{Focus, Frame};
use crate::items::put_item;
use crate::operations::{arithmetic, comparison, member, negation};
use crate::targets::{assign, is_null, update};
use php_values::Value;
use std::alloc::Global;
use text_base::NoMemory;
use value_operations::truth;

/// Hands a value to a frame that was taken off the stack.
pub fn give<'a>(
    alloc: Global,
    m: &mut Evaluator<'a>,
    frame: Frame<'a>,
    value: Value,
) -> Result<Focus<'a>, NoMemory>
    ensures { IfOk result
        (λ f. (r : PlainRequest) (fs : List PlainFunction)
        → Takes r fs (plain_of value) frame.entry m.old f m.new) }
{
    match frame {
        Frame::Subscript(subscript) => {
            let next = m.open(Frame::Container(value), subscript)?;
            Ok(next)
        }
        Frame::Container(container) => {
            let next = member(alloc, &container, &value)?;
            Ok(next)
        }
        Frame::ItemKey(item, rest, made) => {
            let next = m.open(Frame::ItemValue(Some(value), rest, made), item)?;
            Ok(next)
        }
        Frame::ItemValue(key, rest, made) => {
            let next = put_item(alloc, key, rest, made, value)?;
            Ok(next)
        }
        Frame::Row(purpose, rest, mut done) => {
            done.push(value)?;
            Ok(Focus::Row(purpose, rest, done))
        }
        Frame::Keys(writing, rest, mut done) => {
            done.push(Some(value))?;
            Ok(Focus::Keys(writing, rest, done))
        }
        Frame::Negation => {
            let next = negation(&value)?;
            Ok(next)
        }
        Frame::Not => Ok(Focus::Value(Value::Flag(!truth(&value)))),
        Frame::Truth => Ok(Focus::Value(Value::Flag(truth(&value)))),
        Frame::ArithRight(sign, right) => {
            let next = m.open(Frame::ArithLeft(sign, value), right)?;
            Ok(next)
        }
        Frame::ArithLeft(sign, left) => {
            let next = arithmetic(sign, &left, &value)?;
            Ok(next)
        }
        Frame::CompareRight(sign, right) => {
            let next = m.open(Frame::CompareLeft(sign, value), right)?;
            Ok(next)
        }
        Frame::CompareLeft(sign, left) => {
            let next = comparison(alloc, sign, &left, &value)?;
            Ok(next)
        }
        Frame::And(right) => {
            if truth(&value) {
                let next = m.open(Frame::Truth, right)?;
                Ok(next)
            } else {
                Ok(Focus::Value(Value::Flag(false)))
            }
        }
        Frame::Or(right) => {
            if truth(&value) {
                Ok(Focus::Value(Value::Flag(true)))
            } else {
                let next = m.open(Frame::Truth, right)?;
                Ok(next)
            }
        }
        Frame::Coalesce(right) => {
            if is_null(&value) {
                Ok(Focus::Eval(right))
            } else {
                Ok(Focus::Value(value))
            }
        }
        Frame::Choice(middle, right) => match middle {
            None => {
                if truth(&value) {
                    Ok(Focus::Value(value))
                } else {
                    Ok(Focus::Eval(right))
                }
            }
            Some(middle) => {
                if truth(&value) {
                    Ok(Focus::Eval(middle))
                } else {
                    Ok(Focus::Eval(right))
                }
            }
        },
        Frame::Assign(name, subscripts) => {
            let next = assign(alloc, m, name, &subscripts, value)?;
            Ok(next)
        }
        Frame::Update(sign, name, path, old) => {
            let next = update(alloc, m, sign, name, &path, old, value)?;
            Ok(next)
        }
    }
}
