//! The moves of values in a row: joined texts, `isset`, and arguments.

ghost use Rattle.std.specs.Prelude.{◌≡◌, not, ◌⊎◌, List, IfOk, IfErr, Ok, Err};
ghost use Rattle.std.specs.List.{list_all};
ghost use Rattle.php_syntax.specs.Trees.{PlainFunction, functions_of_list};
ghost use Rattle.plain_values.specs.Walks as walks;
ghost use Rattle.php_values.specs.View.{plain_of, plain_list};
ghost use Rattle.script_meaning.specs.Requests.{PlainRequest};
ghost use Rattle.builtin_meaning.specs.Values.{builtin_value};
ghost use Rattle.expr_evaluator.specs.Moves.{Moves, Finishes, Tells};

use crate::evaluator::Evaluator;
use crate::frame::{Focus, Frame, Purpose};
use crate::functions::Functions;
use crate::operations::failed;
use crate::targets::is_null;
use builtin_meaning::Builtin;
use php_builtins::apply;
use php_syntax::tree::Expr;
use php_values::Value;
use std::alloc::Global;
use text_base::{Bytes, NoMemory};
use value_operations::join;

// Whether no value is null.
fn none_is_null(values: &[Value]) -> bool
    ensures { result ≡ list_all (λ v. not (walks.is_null v)) (plain_list values.now) }
{
    let mut rest = values;
    while let Some((value, others)) = rest.split_first() {
        if is_null(value) {
            return false;
        }
        rest = others;
    }
    true
}

// The texts of values, joined.
fn joined<'a>(alloc: Global, values: &[Value]) -> Result<Focus<'a>, NoMemory>
    ensures { IfOk result
        (λ f. (fs : List PlainFunction) → Finishes fs Purpose.Join (plain_list values.now) f) }
{
    match join(alloc, values) {
        Ok(value) => Ok(Focus::Value(value)),
        Err(fault) => {
            let next = failed(fault)?;
            Ok(next)
        }
    }
}

// A function of PHP with its arguments.
fn applied<'a>(alloc: Global, builtin: Builtin, values: &[Value]) -> Result<Focus<'a>, NoMemory>
    ensures { IfOk result (λ f. Tells f (builtin_value builtin (plain_list values.now))) }
{
    match apply(alloc, builtin, values) {
        Ok(value) => Ok(Focus::Value(value)),
        Err(fault) => failed(fault),
    }
}

// A function with its arguments: one of PHP gives its value at once; one that is not there, which
// no program calls, gives null.
fn called<'a>(
    alloc: Global,
    functions: &Functions<'a>,
    name: &'a Bytes,
    args: Vec<Value>,
) -> Result<Focus<'a>, NoMemory>
    ensures { IfOk result
        (λ f. Finishes (functions_of_list functions.now.all.now) (Purpose.Call name.entry)
        (plain_list args.items) f) }
{
    match Builtin::of(name.as_slice()) {
        Some(builtin) => {
            let next = applied(alloc, builtin, &args)?;
            Ok(next)
        }
        None => match functions.named(name.as_slice()) {
            None => Ok(Focus::Value(Value::Null)),
            Some(function) => Ok(Focus::Call(function, args)),
        },
    }
}

// What values in a row come to.
fn finish<'a>(
    alloc: Global,
    functions: &Functions<'a>,
    purpose: Purpose<'a>,
    values: Vec<Value>,
) -> Result<Focus<'a>, NoMemory>
    ensures { IfOk result
        (λ f. Finishes (functions_of_list functions.now.all.now) purpose.entry
        (plain_list values.items) f) }
{
    match purpose {
        Purpose::Join => {
            let next = joined(alloc, &values)?;
            Ok(next)
        }
        Purpose::Isset => Ok(Focus::Value(Value::Flag(none_is_null(&values)))),
        Purpose::Call(name) => {
            let next = called(alloc, functions, name, values)?;
            Ok(next)
        }
    }
}

/// Evaluates the next expression of a row, or goes on behind the last.
pub fn row<'a>(
    alloc: Global,
    functions: &Functions<'a>,
    m: &mut Evaluator<'a>,
    purpose: Purpose<'a>,
    rest: &'a [Expr],
    done: Vec<Value>,
) -> Result<Focus<'a>, NoMemory>
    ensures { IfOk result (λ f. (r : PlainRequest)
        → Moves r (functions_of_list functions.now.all.now)
        (Focus.Row purpose.entry rest.entry done) m.old f m.new) }
{
    match rest.split_first() {
        None => {
            let next = finish(alloc, functions, purpose, done)?;
            Ok(next)
        }
        Some((first, others)) => {
            let next = m.open(Frame::Row(purpose, others, done), first)?;
            Ok(next)
        }
    }
}
