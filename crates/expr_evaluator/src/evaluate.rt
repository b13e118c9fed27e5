//! Evaluations, up to a value or the next call of a function of the script.

ghost use Rattle.std.specs.Prelude.{◌≡◌, IfOk};
ghost use Rattle.php_syntax.specs.Trees.{functions_of_list};
ghost use Rattle.expr_evaluator.specs.Moves.{Pauses, Advances};

use crate::begin::begin;
use crate::evaluator::Evaluator;
use crate::frame::{Focus, Pause};
use crate::functions::Functions;
use crate::give::give;
use crate::items::items;
use crate::rows::row;
use crate::targets::keys;
use php_syntax::tree::Expr;
use php_values::Value;
use request_reading::Request;
use std::alloc::Global;
use text_base::NoMemory;

/// A move that was made, or where an evaluation stops.
#[derive(Drop)]
pub enum Moved<'a> {
    On(Focus<'a>),
    At(Pause<'a>),
}

// One move, unless the evaluation stops.
fn advance<'a>(
    alloc: Global,
    request: &Request,
    functions: &Functions<'a>,
    m: &mut Evaluator<'a>,
    focus: Focus<'a>,
) -> Result<Moved<'a>, NoMemory>
    ensures { IfOk result
        (λ n. Advances request.now (functions_of_list functions.now.all.now) focus.entry m.old n
        m.new) }
{
    match focus {
        Focus::Eval(e) => {
            let next = begin(alloc, request, m, e)?;
            Ok(Moved::On(next))
        }
        Focus::Value(value) => match m.frames.pop() {
            None => Ok(Moved::At(Pause::Value(value))),
            Some(frame) => {
                let next = give(alloc, m, frame, value)?;
                Ok(Moved::On(next))
            }
        },
        Focus::Row(purpose, rest, done) => {
            let next = row(alloc, functions, m, purpose, rest, done)?;
            Ok(Moved::On(next))
        }
        Focus::Items(rest, made) => {
            let next = items(m, rest, made)?;
            Ok(Moved::On(next))
        }
        Focus::Keys(writing, rest, done) => {
            let next = keys(alloc, m, writing, rest, done)?;
            Ok(Moved::On(next))
        }
        Focus::Call(function, args) => Ok(Moved::At(Pause::Call(function, args))),
        Focus::Fault(fault) => Ok(Moved::At(Pause::Fault(fault))),
    }
}

impl<'a> Evaluator<'a> {
    // Goes on up to a value or the next call.
    fn go_on(
        &mut self,
        alloc: Global,
        request: &Request,
        functions: &Functions<'a>,
        first: Focus<'a>,
    ) -> Result<Pause<'a>, NoMemory>
        ensures { IfOk result
            (λ p. Pauses request.now (functions_of_list functions.now.all.now) first.entry self.old
            p self.new) }
    {
        let mut focus = first;
        loop {
            match advance(alloc, request, functions, self, focus)? {
                Moved::On(next) => focus = next,
                Moved::At(pause) => return Ok(pause),
            }
        }
    }

    /// Evaluates an expression up to its value, or to the next call of a function of the script.
    /// What is to come then is what the meaning of the expression says.
    pub fn evaluate(
        &mut self,
        alloc: Global,
        request: &Request,
        functions: &Functions<'a>,
        e: &'a Expr,
    ) -> Result<Pause<'a>, NoMemory>
        ensures { IfOk result
            (λ p. Pauses request.now (functions_of_list functions.now.all.now) (Focus.Eval e.entry)
            self.old p self.new) }
    {
        self.go_on(alloc, request, functions, Focus::Eval(e))
    }

    /// Goes on with the value of the call at which an evaluation stopped.
    pub fn resume(
        &mut self,
        alloc: Global,
        request: &Request,
        functions: &Functions<'a>,
        value: Value,
    ) -> Result<Pause<'a>, NoMemory>
        ensures { IfOk result
            (λ p. Pauses request.now (functions_of_list functions.now.all.now) (Focus.Value value)
            self.old p self.new) }
    {
        self.go_on(alloc, request, functions, Focus::Value(value))
    }
}
