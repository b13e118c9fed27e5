//! The moves that begin a statement.

ghost use Rattle.std.specs.Prelude.{◌≡◌, Some, None, IfOk};
ghost use Rattle.php_syntax.specs.Trees.{plain_stmt, maybe_of};
ghost use Rattle.script_runs.specs.Frames.{maybe_plain};
ghost use Rattle.script_runs.specs.Frames as spec;
ghost use Rattle.script_runs.specs.StatementMoves.{Begins, Means};

use crate::frames::{End, Flow, Looping, Next, Wait};
use crate::heads::{arms_next, before_loop, echo_next, loop_next};
use php_syntax::tree::{Expr, Stmt};
use php_values::Value;
use text_base::{Bytes, NoMemory};

/// Whether a statement is an `include`, of which no program has one.
#[tactic(auto, using(php_syntax::proofs::Views::views))]
pub fn is_include(statement: &Stmt) -> bool
    ensures { result ≡ spec.is_include (plain_stmt statement.now) }
{
    match statement {
        Stmt::Include(_) => true,
        Stmt::Inline(_)
        | Stmt::Echo(_)
        | Stmt::Run(_)
        | Stmt::If(_, _)
        | Stmt::While(_, _)
        | Stmt::DoWhile(_, _)
        | Stmt::For(_, _, _, _)
        | Stmt::Each(_, _, _, _)
        | Stmt::Break
        | Stmt::Continue
        | Stmt::Return(_)
        | Stmt::Quit(_) => false,
    }
}

// A name, if one is written.
fn name_of(name: &Option<Bytes>) -> Option<&Bytes>
    ensures { spec.name_of result ≡ name.now }
{
    match name {
        None => None,
        Some(name) => Some(name),
    }
}

// An expression, if one is written.
fn test_of(test: &Option<Expr>) -> Option<&Expr>
    ensures { maybe_plain result ≡ maybe_of test.now }
{
    match test {
        None => None,
        Some(test) => Some(test),
    }
}

// A loop with nothing behind its turns.
fn while_of<'a>(test: &'a Expr, body: &'a Vec<Stmt>) -> Looping<'a>
    ensures { spec.IsWhile test.entry body.entry result }
{
    Looping {
        test: Some(test),
        behind: &[],
        body,
    }
}

// `return`, with a value or without.
fn return_next<'a>(value: &'a Option<Expr>) -> Next<'a>
    ensures { Means result (λ w. spec.returning w (maybe_of value.now)) 2 }
{
    match value {
        None => Next::Left(Flow::Returns(Value::Null)),
        Some(value) => Next::Eval(value, Wait::Return),
    }
}

// `exit`, with a value or without.
fn quit_next<'a>(value: &'a Option<Expr>) -> Next<'a>
    ensures { Means result (λ w. spec.quitting w (maybe_of value.now)) 2 }
{
    match value {
        None => Next::Over(End::Ended),
        Some(value) => Next::Eval(value, Wait::Quit),
    }
}

/// Begins a statement that is no `include`, once its unit was taken.
pub fn begin<'a>(printed: &mut Bytes, statement: &'a Stmt) -> Result<Next<'a>, NoMemory>
    ensures { IfOk result (λ n. Begins statement.now printed.old n printed.new) }
{
    match statement {
        Stmt::Inline(bytes) => {
            printed.append(bytes.as_slice())?;
            Ok(Next::Left(Flow::GoesOn))
        }
        Stmt::Echo(values) => Ok(echo_next(values)),
        Stmt::Run(value) => Ok(Next::Eval(value, Wait::Run)),
        Stmt::If(arms, otherwise) => Ok(arms_next(arms, otherwise)),
        Stmt::While(test, body) => Ok(loop_next(while_of(test, body))),
        Stmt::DoWhile(body, test) => Ok(Next::Turn(while_of(test, body))),
        Stmt::For(first, test, behind, body) => {
            let again = Looping {
                test: test_of(test),
                behind,
                body,
            };
            Ok(before_loop(first, again))
        }
        Stmt::Each(array, key, value, body) => {
            Ok(Next::Eval(array, Wait::Each(name_of(key), value, body)))
        }
        Stmt::Break => Ok(Next::Left(Flow::Breaks)),
        Stmt::Continue => Ok(Next::Left(Flow::Continues)),
        Stmt::Return(value) => Ok(return_next(value)),
        Stmt::Quit(value) => Ok(quit_next(value)),
        Stmt::Include(_) => Ok(Next::Left(Flow::GoesOn)),
    }
}
