//! The moves of a run between two units.

ghost use Rattle.std.specs.Prelude.{◌≡◌, ℕ, [], List, IfOk};
ghost use Rattle.php_syntax.specs.Trees.{PlainFunction, functions_of_list};
ghost use Rattle.script_meaning.specs.Requests.{PlainRequest};
ghost use Rattle.script_runs.specs.Moves.{Enters, IsIdle, IsReady, Leaves, Moves, Resumes, Returns, Settles, Stops};

use crate::calls::{Caller, Pending};
use crate::returning::value_returned;
use crate::wants::{Moved, Settled, Wanted};
use crate::{End, Flow, Next, Task, Wait, give, hand_on, is_include};
use expr_evaluator::{Functions, Pause};
use php_syntax::tree::{Expr, Stmt};
use request_reading::Request;
use std::alloc::Global;
use text_base::NoMemory;

// Goes on where an evaluation stopped.
fn resumed<'a>(
    alloc: Global,
    pending: &mut Pending<'a>,
    wait: Wait<'a>,
    pause: Pause<'a>,
) -> Result<Moved<'a>, NoMemory>
    requires { Stops pending.old pause }
    ensures { IfOk result (λ m. (r : PlainRequest) (fs : List PlainFunction)
        → Resumes r fs pending.old wait.entry pause.entry m pending.new) }
{
    match pause {
        Pause::Value(value) => {
            let next = give(alloc, &mut pending.printed, wait, value)?;
            Ok(Moved::On(next))
        }
        Pause::Call(function, args) => Ok(Moved::At(Settled::Wants(Wanted::Call(
            function, args, wait,
        )))),
        Pause::Fault(fault) => Ok(Moved::At(Settled::Over(End::Fault(fault)))),
    }
}

// Goes on with the caller of a call that was left so.
fn return_to<'a>(
    alloc: Global,
    request: &Request,
    functions: &Functions<'a>,
    pending: &mut Pending<'a>,
    caller: Caller<'a>,
    flow: Flow,
) -> Result<Moved<'a>, NoMemory>
    ensures { IfOk result (λ m. Returns request.now (functions_of_list functions.now.all.now)
        pending.old caller.entry flow m pending.new) }
{
    pending.current = caller.call;
    let value = value_returned(flow);
    let pause = pending
        .current
        .evaluator
        .resume(alloc, request, functions, value)?;
    resumed(alloc, pending, caller.wait, pause)
}

// Hands on how a statement was left.
fn left_so<'a>(
    alloc: Global,
    request: &Request,
    functions: &Functions<'a>,
    pending: &mut Pending<'a>,
    flow: Flow,
) -> Result<Moved<'a>, NoMemory>
    requires { IsIdle pending.old }
    ensures { IfOk result (λ m. Leaves request.now (functions_of_list functions.now.all.now)
        pending.old flow m pending.new) }
{
    match pending.current.tasks.pop() {
        Some(task) => {
            let next = hand_on(task, flow)?;
            Ok(Moved::On(next))
        }
        None => match pending.callers.pop() {
            Some(caller) => return_to(alloc, request, functions, pending, caller, flow),
            None => Ok(Moved::At(Settled::Over(End::Ended))),
        },
    }
}

// Goes on with a statement and those behind it.
fn first_of<'a>(
    pending: &mut Pending<'a>,
    first: &'a Stmt,
    rest: &'a [Stmt],
) -> Result<Moved<'a>, NoMemory>
    requires { IsIdle pending.old }
    ensures { IfOk result (λ m. (r : PlainRequest) (fs : List PlainFunction)
        → Enters r fs pending.old first.entry rest.entry m pending.new) }
{
    if is_include(first) {
        return Ok(Moved::On(Next::Block(rest)));
    }
    pending.current.tasks.push(Task::Rest(rest))?;
    Ok(Moved::At(Settled::Wants(Wanted::Statement(first))))
}

// Goes on with statements.
fn block_of<'a>(pending: &mut Pending<'a>, statements: &'a [Stmt]) -> Result<Moved<'a>, NoMemory>
    requires { IsIdle pending.old }
    ensures { IfOk result (λ m. (r : PlainRequest) (fs : List PlainFunction)
        → Moves r fs pending.old (Next.Block statements.entry) m pending.new) }
{
    match statements.split_first() {
        None => Ok(Moved::On(Next::Left(Flow::GoesOn))),
        Some((first, rest)) => {
            let moved = first_of(pending, first, rest)?;
            Ok(moved)
        }
    }
}

// Evaluates an expression.
fn evaluated<'a>(
    alloc: Global,
    request: &Request,
    functions: &Functions<'a>,
    pending: &mut Pending<'a>,
    expr: &'a Expr,
    wait: Wait<'a>,
) -> Result<Moved<'a>, NoMemory>
    requires { IsIdle pending.old }
    ensures { IfOk result (λ m. Moves request.now (functions_of_list functions.now.all.now)
        pending.old (Next.Eval expr.entry wait.entry) m pending.new) }
{
    let pause = pending
        .current
        .evaluator
        .evaluate(alloc, request, functions, expr)?;
    resumed(alloc, pending, wait, pause)
}

// One move, unless a unit is wanted.
fn advance<'a>(
    alloc: Global,
    request: &Request,
    functions: &Functions<'a>,
    pending: &mut Pending<'a>,
    next: Next<'a>,
) -> Result<Moved<'a>, NoMemory>
    requires { IsReady pending.old next }
    ensures { IfOk result (λ m. Moves request.now (functions_of_list functions.now.all.now)
        pending.old next.entry m pending.new) }
{
    match next {
        Next::Block(statements) => {
            let moved = block_of(pending, statements)?;
            Ok(moved)
        }
        Next::Left(flow) => {
            let moved = left_so(alloc, request, functions, pending, flow)?;
            Ok(moved)
        }
        Next::Eval(expr, wait) => {
            let moved = evaluated(alloc, request, functions, pending, expr, wait)?;
            Ok(moved)
        }
        Next::Turn(again) => Ok(Moved::At(Settled::Wants(Wanted::Turn(again)))),
        Next::Step(key, value, walk) => Ok(Moved::At(Settled::Wants(Wanted::Step(
            key, value, walk,
        )))),
        Next::Over(end) => Ok(Moved::At(Settled::Over(end))),
    }
}

/// Goes on up to where a unit is wanted, or to the end of the run.
pub fn settle<'a>(
    alloc: Global,
    request: &Request,
    functions: &Functions<'a>,
    pending: &mut Pending<'a>,
    first: Next<'a>,
) -> Result<Settled<'a>, NoMemory>
    requires { IsReady pending.old first }
    ensures { IfOk result (λ x. Settles request.now (functions_of_list functions.now.all.now)
        pending.old first.entry x pending.new) }
{
    let mut next = first;
    loop {
        match advance(alloc, request, functions, pending, next)? {
            Moved::On(further) => next = further,
            Moved::At(settled) => return Ok(settled),
        }
    }
}
