//! The moves that begin an expression.

ghost use Rattle.std.specs.Prelude.{◌≡◌, List, IfOk};
ghost use Rattle.php_syntax.specs.Trees.{PlainFunction, boxed_of};
ghost use Rattle.plain_values.specs.Plain.{Plain};
ghost use Rattle.php_values.specs.View.{plain_of};
ghost use Rattle.script_meaning.specs.Requests.{request_array};
ghost use Rattle.expr_evaluator.specs.Frames.{step_in, maybe_plain};
ghost use Rattle.expr_evaluator.specs.Moves.{Moves, Does};

use crate::evaluator::Evaluator;
use crate::frame::{Focus, Frame, Purpose, Writing};
use crate::operations::{failed, stepped};
use php_syntax::tree::{Expr, SuperName};
use php_values::{Array, Text, Value};
use request_reading::Request;
use std::alloc::Global;
use text_base::{Bytes, NoMemory};

// The value of a text literal. One that is longer than a text may be, which no file holds, wants
// memory.
fn literal(alloc: Global, bytes: &Bytes) -> Result<Value, NoMemory>
    ensures { IfOk result (λ v. plain_of v ≡ Plain.text bytes.now) }
{
    match Text::new(alloc, bytes.as_slice()) {
        Ok(text) => Ok(Value::Text(text)),
        Err(_) => Err(NoMemory),
    }
}

// The value of an integer literal.
fn int_value(number: &i64) -> Value
    ensures { plain_of result ≡ Plain.int number.now }
{
    Value::Int(*number)
}

// The middle operand of a choice, if there is one.
fn middle_of(middle: &Option<Box<Expr>>) -> Option<&Expr>
    ensures { maybe_plain result ≡ boxed_of middle.now }
{
    match middle {
        None => None,
        Some(middle) => Some(middle),
    }
}

// The value of a request variable.
fn request_value(request: &Request, name: SuperName) -> Result<Value, NoMemory>
    ensures { IfOk result (λ v. plain_of v ≡ Plain.array (request_array request.now name)) }
{
    let array = request.array(name).share()?;
    Ok(Value::Array(array))
}

// The value of `++` or `--`, which writes its variable.
fn step<'a>(
    m: &mut Evaluator<'a>,
    name: &'a Bytes,
    up: bool,
    before: bool,
) -> Result<Focus<'a>, NoMemory>
    ensures { IfOk result (λ f. Does (step_in name.now up before) m.old f m.new) }
{
    let old = m.variables.get(name)?;
    match stepped(up, &old) {
        Ok(new) => {
            let kept = new.share()?;
            m.variables.set(name, kept)?;
            if before {
                Ok(Focus::Value(new))
            } else {
                Ok(Focus::Value(old))
            }
        }
        Err(fault) => {
            let next = failed(fault)?;
            Ok(next)
        }
    }
}

/// Begins an expression.
pub fn begin<'a>(
    alloc: Global,
    request: &Request,
    m: &mut Evaluator<'a>,
    e: &'a Expr,
) -> Result<Focus<'a>, NoMemory>
    ensures { IfOk result
        (λ f. (fs : List PlainFunction) → Moves request.now fs (Focus.Eval e.entry) m.old f m.new) }
{
    match e {
        Expr::Null => Ok(Focus::Value(Value::Null)),
        Expr::Flag(truth) => Ok(Focus::Value(Value::Flag(*truth))),
        Expr::Int(number) => Ok(Focus::Value(int_value(number))),
        Expr::Text(bytes) => {
            let value = literal(alloc, bytes)?;
            Ok(Focus::Value(value))
        }
        Expr::Var(name) => {
            let value = m.variables.get(name)?;
            Ok(Focus::Value(value))
        }
        Expr::Super(name) => {
            let value = request_value(request, *name)?;
            Ok(Focus::Value(value))
        }
        Expr::Member(container, subscript) => {
            let next = m.open(Frame::Subscript(subscript), container)?;
            Ok(next)
        }
        Expr::ArrayOf(items) => {
            let made = Array::new(alloc)?;
            Ok(Focus::Items(items, made))
        }
        Expr::Join(parts) => Ok(Focus::Row(Purpose::Join, parts, Vec::new(alloc))),
        Expr::Neg(operand) => {
            let next = m.open(Frame::Negation, operand)?;
            Ok(next)
        }
        Expr::Not(operand) => {
            let next = m.open(Frame::Not, operand)?;
            Ok(next)
        }
        Expr::Arith(sign, left, right) => {
            let next = m.open(Frame::ArithRight(*sign, right), left)?;
            Ok(next)
        }
        Expr::Compare(sign, left, right) => {
            let next = m.open(Frame::CompareRight(*sign, right), left)?;
            Ok(next)
        }
        Expr::And(left, right) => {
            let next = m.open(Frame::And(right), left)?;
            Ok(next)
        }
        Expr::Or(left, right) => {
            let next = m.open(Frame::Or(right), left)?;
            Ok(next)
        }
        Expr::Coalesce(left, right) => {
            let next = m.open(Frame::Coalesce(right), left)?;
            Ok(next)
        }
        Expr::Choice(test, middle, right) => {
            let next = m.open(Frame::Choice(middle_of(middle), right), test)?;
            Ok(next)
        }
        Expr::Isset(parts) => Ok(Focus::Row(Purpose::Isset, parts, Vec::new(alloc))),
        Expr::Empty(operand) => {
            let next = m.open(Frame::Not, operand)?;
            Ok(next)
        }
        Expr::Assign(target, right) => Ok(Focus::Keys(
            Writing::Assign(&target.name, right),
            &target.path,
            Vec::new(alloc),
        )),
        Expr::Update(sign, target, right) => Ok(Focus::Keys(
            Writing::Update(*sign, &target.name, right),
            &target.path,
            Vec::new(alloc),
        )),
        Expr::Step { name, up, before } => {
            let next = step(m, name, *up, *before)?;
            Ok(next)
        }
        Expr::Call(name, args) => Ok(Focus::Row(Purpose::Call(name), args, Vec::new(alloc))),
    }
}
