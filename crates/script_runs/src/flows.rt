//! The moves behind a statement.

ghost use Rattle.std.specs.Prelude.{◌≡◌, MatchResult, IfOk};
ghost use Rattle.php_syntax.specs.Trees.{stmts_of};
ghost use Rattle.script_meaning.specs.Statements.{statements, next_after};
ghost use Rattle.script_runs.specs.Frames.{plain_flow, task_after, LeavesLoop, StaysInLoop};
ghost use Rattle.script_runs.specs.Cost.{task_weight};
ghost use Rattle.script_runs.specs.StatementMoves.{Means};

use crate::frames::{Flow, Looping, Next, Task, Walking};
use crate::heads::{before_loop, walk_next};
use php_syntax::tree::Stmt;
use text_base::NoMemory;

// Goes on with the next statements, unless the one before them was left otherwise than at its end.
fn rest_next<'a>(rest: &'a [Stmt], flow: Flow) -> Next<'a>
    ensures { Means result
        (λ w s. next_after (plain_flow flow) s (statements w (stmts_of rest.now)))
        (task_weight (Task.Rest rest.entry)) }
{
    match flow {
        Flow::GoesOn => Next::Block(rest),
        other => Next::Left(other),
    }
}

// Whether a loop goes on behind a turn; else how the loop is left.
fn behind_turn(flow: Flow) -> Result<(), Flow>
    ensures { MatchResult result (λ _. StaysInLoop (plain_flow flow))
        (λ left. LeavesLoop (plain_flow flow) (plain_flow left)) }
{
    match flow {
        Flow::GoesOn => Ok(()),
        Flow::Continues => Ok(()),
        Flow::Breaks => Err(Flow::GoesOn),
        Flow::Returns(value) => Err(Flow::Returns(value)),
    }
}

// Goes on behind a turn of a loop.
fn loop_behind<'a>(again: Looping<'a>, flow: Flow) -> Next<'a>
    ensures { Means result (λ w. task_after w (Task.Loop again.entry) (plain_flow flow))
        (task_weight (Task.Loop again.entry)) }
{
    match behind_turn(flow) {
        Ok(()) => before_loop(again.behind, again),
        Err(left) => Next::Left(left),
    }
}

// Goes on behind a turn of a walk.
fn walk_behind<'a>(walk: Walking<'a>, flow: Flow) -> Result<Next<'a>, NoMemory>
    ensures { IfOk result (λ n. Means n (λ w. task_after w (Task.Walk walk.entry) (plain_flow flow))
        (task_weight (Task.Walk walk.entry))) }
{
    match behind_turn(flow) {
        Ok(()) => {
            let next = walk_next(walk)?;
            Ok(next)
        }
        Err(left) => Ok(Next::Left(left)),
    }
}

/// Hands on how a statement was left to what waited for its end.
pub fn hand_on<'a>(task: Task<'a>, flow: Flow) -> Result<Next<'a>, NoMemory>
    ensures { IfOk result
        (λ n. Means n (λ w. task_after w task.entry (plain_flow flow)) (task_weight task.entry)) }
{
    match task {
        Task::Rest(rest) => Ok(rest_next(rest, flow)),
        Task::Loop(again) => Ok(loop_behind(again, flow)),
        Task::Walk(walk) => {
            let next = walk_behind(walk, flow)?;
            Ok(next)
        }
    }
}
