//! The moves of array literals.

ghost use Rattle.std.specs.Prelude.{◌≡◌, List, IfOk};
ghost use Rattle.php_syntax.specs.Trees.{PlainFunction};
ghost use Rattle.plain_values.specs.Plain.{Plain};
ghost use Rattle.php_values.specs.View.{plain_of};
ghost use Rattle.script_meaning.specs.Requests.{PlainRequest};
ghost use Rattle.expr_evaluator.specs.Moves.{Moves, Takes};

use crate::evaluator::Evaluator;
use crate::frame::{Focus, Frame};
use crate::operations::{failed, with_item};
use php_syntax::tree::Expr;
use php_values::{Array, Value};
use std::alloc::Global;
use text_base::NoMemory;

/// Puts a value into an array, and goes on with the items behind it.
pub fn put_item<'a>(
    alloc: Global,
    key: Option<Value>,
    rest: &'a [(Option<Expr>, Expr)],
    made: Array,
    value: Value,
) -> Result<Focus<'a>, NoMemory>
    ensures { IfOk result (λ f. (r : PlainRequest) (fs : List PlainFunction) (m : Evaluator)
        → Takes r fs (plain_of value) (Frame.ItemValue key rest.entry made) m f m) }
{
    match with_item(alloc, made, &key, value) {
        Ok(made) => Ok(Focus::Items(rest, made)),
        Err(fault) => {
            let next = failed(fault)?;
            Ok(next)
        }
    }
}

/// Goes on with the next item of a literal, or gives the array.
pub fn items<'a>(
    m: &mut Evaluator<'a>,
    rest: &'a [(Option<Expr>, Expr)],
    made: Array,
) -> Result<Focus<'a>, NoMemory>
    ensures { IfOk result
        (λ f. (r : PlainRequest) (fs : List PlainFunction)
        → Moves r fs (Focus.Items rest.entry made) m.old f m.new) }
{
    match rest.split_first() {
        None => Ok(Focus::Value(Value::Array(made))),
        Some(((Some(key), value), others)) => {
            let next = m.open(Frame::ItemKey(value, others, made), key)?;
            Ok(next)
        }
        Some(((None, value), others)) => {
            let next = m.open(Frame::ItemValue(None, others, made), value)?;
            Ok(next)
        }
    }
}
