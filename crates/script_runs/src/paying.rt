//! The moves that take a unit.

ghost use Rattle.std.specs.Prelude.{◌≡◌, ℕ, List, IfOk, OnOk};
ghost use Rattle.php_syntax.specs.Trees.{PlainFunction};
ghost use Rattle.plain_values.specs.Walks.{value_of_key};
ghost use Rattle.php_values.specs.View.{plain_key, plain_of};
ghost use Rattle.script_meaning.specs.Requests.{PlainRequest};
ghost use Rattle.script_runs.specs.Moves.{MayTake, Pays, SetsPair};

use crate::binding::variables_of;
use crate::calls::{Call, Caller, Pending};
use crate::wants::Wanted;
use crate::{End, Looping, Next, Task, Wait, Walking, begin};
use expr_evaluator::Variables;
use php_syntax::tree::FunctionDef;
use php_values::{Key, Value};
use std::alloc::Global;
use std::mem;
use text_base::NoMemory;

// A key as a value.
fn key_value(key: Key) -> Result<Value, NoMemory>
    ensures { IfOk result (λ v. plain_of v ≡ value_of_key (plain_key key)) }
{
    match key {
        Key::Int(number) => Ok(Value::Int(number)),
        Key::Text(text) => {
            let text = text.text()?;
            Ok(Value::Text(text))
        }
    }
}

// Writes the variables of a step of a walk, the key before the value.
fn set_pair<'a>(
    variables: &mut Variables<'a>,
    walk: &Walking<'a>,
    key: Key,
    value: Value,
) -> Result<(), NoMemory>
    ensures { OnOk result
        (SetsPair walk.now (plain_key key) (plain_of value) variables.old variables.new) }
{
    match walk.key {
        None => {
            variables.set(walk.value, value)?;
            Ok(())
        }
        Some(name) => {
            let key = key_value(key)?;
            variables.set(name, key)?;
            variables.set(walk.value, value)?;
            Ok(())
        }
    }
}

// A turn of a walk.
fn step<'a>(
    pending: &mut Pending<'a>,
    key: Key,
    value: Value,
    walk: Walking<'a>,
) -> Result<Next<'a>, NoMemory>
    requires { MayTake pending.old (Wanted.Step key value walk) }
    ensures { IfOk result (λ n. (r : PlainRequest) (fs : List PlainFunction)
        → Pays r fs pending.old (Wanted.Step key value walk.entry) n pending.new) }
{
    set_pair(&mut pending.current.evaluator.variables, &walk, key, value)?;
    let body = walk.body;
    pending.current.tasks.push(Task::Walk(walk))?;
    Ok(Next::Block(body))
}

// A turn of a loop.
fn turn<'a>(pending: &mut Pending<'a>, again: Looping<'a>) -> Result<Next<'a>, NoMemory>
    requires { MayTake pending.old (Wanted.Turn again) }
    ensures { IfOk result (λ n. (r : PlainRequest) (fs : List PlainFunction)
        → Pays r fs pending.old (Wanted.Turn again.entry) n pending.new) }
{
    pending.current.tasks.push(Task::Loop(again))?;
    Ok(Next::Block(again.body))
}

// A call, unless it would be one too many.
fn call<'a>(
    alloc: Global,
    pending: &mut Pending<'a>,
    function: &'a FunctionDef,
    args: Vec<Value>,
    wait: Wait<'a>,
) -> Result<Next<'a>, NoMemory>
    ensures { IfOk result (λ n. (r : PlainRequest) (fs : List PlainFunction)
        → Pays r fs pending.old (Wanted.Call function.entry args wait.entry) n pending.new) }
{
    let room = pending.current.room;
    if room == 0 {
        return Ok(Next::Over(End::Deep));
    }
    let variables = variables_of(alloc, &function.params, args)?;
    let opened = Call::new(alloc, room - 1, variables);
    let call = mem::replace(&mut pending.current, opened);
    pending.callers.push(Caller { call, wait })?;
    Ok(Next::Block(&function.body))
}

/// Goes on with the unit that was wanted.
pub fn go_on<'a>(
    alloc: Global,
    pending: &mut Pending<'a>,
    wanted: Wanted<'a>,
) -> Result<Next<'a>, NoMemory>
    requires { MayTake pending.old wanted }
    ensures { IfOk result (λ n. (r : PlainRequest) (fs : List PlainFunction)
        → Pays r fs pending.old wanted.entry n pending.new) }
{
    match wanted {
        Wanted::Statement(statement) => {
            let next = begin(&mut pending.printed, statement)?;
            Ok(next)
        }
        Wanted::Turn(again) => {
            let next = turn(pending, again)?;
            Ok(next)
        }
        Wanted::Step(key, value, walk) => {
            let next = step(pending, key, value, walk)?;
            Ok(next)
        }
        Wanted::Call(function, args, wait) => {
            let next = call(alloc, pending, function, args, wait)?;
            Ok(next)
        }
    }
}
