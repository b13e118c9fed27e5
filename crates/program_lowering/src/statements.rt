//! Statements that have bodies, and statements in a row.
//!
//! What stands behind a statement that cannot complete normally is left out. The kinds of statements
//! are not inlined into one another, so that each level takes the stack of its own kind alone.

ghost use Rattle.std.specs.Prelude.{◌≡◌, IfOk, OnOk, List};
ghost use Rattle.php_syntax.specs.Trees.{plain_expr, plain_stmt, stmts_of, arms_of, exprs_of, maybe_of};
ghost use Rattle.flow_code.specs.Code.{Block, no_block, ◌before◌, run_code};
ghost use Rattle.flow_code.specs.Expressions.{code, codes, variable};
ghost use Rattle.flow_code.specs.Completion.{completes, all_complete, one_completes, jumps_out, some_jump_out, one_jumps_out};
ghost use Rattle.flow_code.specs.Statements.{Test, arm, test_of, test_code, looping, repeating, walking, key_variable, stmt_block, block, arms_block};
ghost use Rattle.flow_lowering.specs.View.{progress};
ghost use Rattle.flow_lowering.specs.Emits.{Progress, place};
ghost use Rattle.flow_lowering.specs.ScopeView.{scope_in};
ghost use Rattle.flow_lowering.specs.declared.exits.Exit.{Exit};
ghost use Rattle.flow_lowering.specs.Blocks.{Lays, Drafts, Opens};
ghost use Rattle.program_lowering.specs.Arms.{Armed};

use crate::alone::{
    key_slot, lower_echo, lower_inline, lower_maybe_test, lower_quit, lower_return, lower_run,
    lower_test,
};
use expression_lowering::{LoweringError, lower_expr, lower_exprs};
use flow_code::FlowPoint;
use flow_lowering::{
    Exit, FunctionScope, Head, PointBuilder, Ways, begin_walk, end_loop, fill_exits, put_break,
    put_continue, put_jump,
};
use php_syntax::tree::{Expr, Stmt};
use std::alloc::Global;
use text_base::{Bytes, Point};

/// Statements, one behind the other, and how a run may leave them. Their `break` and `continue`
/// outside loops of their own are put behind the exits so far, and are to be replaced once it is
/// known where they lead.
#[cycle(statements)]
pub fn lower_stmts(
    alloc: Global,
    scope: &FunctionScope<'_>,
    stmts: &[Stmt],
    points: &mut PointBuilder,
    exits: &mut Vec<Exit>,
) -> Result<Ways, LoweringError>
    ensures points { OnOk result
        (Drafts (progress points.old) (progress points.new) exits.old.items exits.new.items
        (block (scope_in scope.now) (stmts_of stmts.now))) }
    ensures completes { IfOk result
        (λ ways. ways.completes ≡ all_complete (stmts_of stmts.now)) }
    ensures jumps { IfOk result (λ ways. ways.jumps_out ≡ some_jump_out (stmts_of stmts.now)) }
{
    let mut ways = Ways {
        completes: true,
        jumps_out: false,
    };
    for stmt in stmts {
        let next = lower_stmt(alloc, scope, stmt, points, exits)?;
        ways = ways.then(next);
        if !ways.completes {
            return Ok(ways);
        }
    }
    Ok(ways)
}

// An arm of an `if`, and how a run may leave its body. Where it may go on behind the body, a point
// that jumps over what stands behind the arm is put behind the jumps so far, and is to be replaced.
#[cycle(statements)]
fn lower_arm(
    alloc: Global,
    scope: &FunctionScope<'_>,
    test: &Expr,
    body: &[Stmt],
    points: &mut PointBuilder,
    exits: &mut Vec<Exit>,
    jumps: &mut Vec<Exit>,
) -> Result<Ways, LoweringError>
    ensures points { IfOk result
        (λ ways. (s : Progress) (last : List Exit) (rest : Block)
        → Drafts (progress points.new) s exits.new.items last rest
        → Armed (progress points.old) s exits.old.items last jumps.old.items jumps.new.items
        (arm (all_complete (stmts_of body.now)) (code (scope_in scope.now) (plain_expr test.now))
        (block (scope_in scope.now) (stmts_of body.now)) rest)) }
    ensures completes { IfOk result (λ ways. ways.completes ≡ all_complete (stmts_of body.now)) }
    ensures jumps { IfOk result (λ ways. ways.jumps_out ≡ some_jump_out (stmts_of body.now)) }
{
    let slot = lower_expr(alloc, scope, test, points)?;
    let branch = points.reserve()?;
    let ways = lower_stmts(alloc, scope, body, points, exits)?;
    put_jump(ways.completes, points, jumps)?;
    let yes = branch.behind;
    let no = points.place();
    points.replace(branch.index, FlowPoint::Branch { slot, yes, no });
    Ok(ways)
}

// `if`
#[cycle(statements)]
#[inline(never)]
fn lower_if(
    alloc: Global,
    scope: &FunctionScope<'_>,
    arms: &[(Expr, Vec<Stmt>)],
    otherwise: &[Stmt],
    points: &mut PointBuilder,
    exits: &mut Vec<Exit>,
) -> Result<Ways, LoweringError>
    ensures points { OnOk result
        (Drafts (progress points.old) (progress points.new) exits.old.items exits.new.items
        (arms_block (scope_in scope.now) (arms_of arms.now)
        (block (scope_in scope.now) (stmts_of otherwise.now)))) }
    ensures completes { IfOk result (λ ways. ways.completes
        ≡ one_completes (arms_of arms.now) (all_complete (stmts_of otherwise.now))) }
    ensures jumps { IfOk result (λ ways. ways.jumps_out
        ≡ one_jumps_out (arms_of arms.now) (some_jump_out (stmts_of otherwise.now))) }
{
    let mut jumps = Vec::new(alloc);
    let mut ways = Ways {
        completes: false,
        jumps_out: false,
    };
    for arm in arms {
        let body = arm.1.as_slice();
        let next = lower_arm(alloc, scope, &arm.0, body, points, exits, &mut jumps)?;
        ways = ways.beside(next);
    }
    let last = lower_stmts(alloc, scope, otherwise, points, exits)?;
    let stop = points.place();
    fill_exits(jumps, stop, stop, points);
    Ok(ways.beside(last))
}

// The turns of `while` and `for` behind their test, which begins at `back`.
#[cycle(statements)]
fn lower_turns(
    alloc: Global,
    scope: &FunctionScope<'_>,
    head: Head,
    back: Point,
    body: &[Stmt],
    next: &[Expr],
    points: &mut PointBuilder,
) -> Result<(), LoweringError>
    ensures { OnOk result
        ((start : Progress) (test : Test) → Opens start (progress points.old) head test → back.0
        ≡ place start
        → Lays start (progress points.new)
        (looping test (block (scope_in scope.now) (stmts_of body.now))
        (run_code (codes (scope_in scope.now) (exprs_of next.now))))) }
{
    let mut exits = Vec::new(alloc);
    lower_stmts(alloc, scope, body, points, &mut exits)?;
    let again = points.place();
    lower_exprs(alloc, scope, next, points)?;
    end_loop(head, FlowPoint::Jump { next: back }, again, exits, points)?;
    Ok(())
}

// `while`
#[cycle(statements)]
#[inline(never)]
fn lower_while(
    alloc: Global,
    scope: &FunctionScope<'_>,
    test: &Expr,
    body: &[Stmt],
    points: &mut PointBuilder,
) -> Result<(), LoweringError>
    ensures { OnOk result (Lays (progress points.old) (progress points.new)
        (looping (test_of (code (scope_in scope.now) (plain_expr test.now)))
        (block (scope_in scope.now) (stmts_of body.now)) no_block)) }
{
    let back = points.place();
    let head = lower_test(alloc, scope, test, points)?;
    lower_turns(alloc, scope, head, back, body, &[], points)?;
    Ok(())
}

// `for`
#[cycle(statements)]
#[inline(never)]
fn lower_for(
    alloc: Global,
    scope: &FunctionScope<'_>,
    begin: &[Expr],
    test: &Option<Expr>,
    next: &[Expr],
    body: &[Stmt],
    points: &mut PointBuilder,
) -> Result<(), LoweringError>
    ensures { OnOk result
        (Lays (progress points.old) (progress points.new)
        (run_code (codes (scope_in scope.now) (exprs_of begin.now))
        before looping (test_code (scope_in scope.now) (maybe_of test.now))
        (block (scope_in scope.now) (stmts_of body.now))
        (run_code (codes (scope_in scope.now) (exprs_of next.now))))) }
{
    lower_exprs(alloc, scope, begin, points)?;
    let back = points.place();
    let head = lower_maybe_test(alloc, scope, test, points)?;
    lower_turns(alloc, scope, head, back, body, next, points)?;
    Ok(())
}

// `do`
#[cycle(statements)]
#[inline(never)]
fn lower_do(
    alloc: Global,
    scope: &FunctionScope<'_>,
    body: &[Stmt],
    test: &Expr,
    points: &mut PointBuilder,
) -> Result<(), LoweringError>
    ensures { OnOk result (Lays (progress points.old) (progress points.new)
        (repeating (block (scope_in scope.now) (stmts_of body.now))
        (code (scope_in scope.now) (plain_expr test.now)))) }
{
    let yes = points.place();
    let mut exits = Vec::new(alloc);
    lower_stmts(alloc, scope, body, points, &mut exits)?;
    let again = points.place();
    let slot = lower_expr(alloc, scope, test, points)?;
    let no = points.ahead(1);
    end_loop(
        Head::Always,
        FlowPoint::Branch { slot, yes, no },
        again,
        exits,
        points,
    )?;
    Ok(())
}

// `foreach`
#[cycle(statements)]
#[inline(never)]
fn lower_each(
    alloc: Global,
    scope: &FunctionScope<'_>,
    array: &Expr,
    key: &Option<Bytes>,
    value: &Bytes,
    body: &[Stmt],
    points: &mut PointBuilder,
) -> Result<(), LoweringError>
    ensures { OnOk result
        (Lays (progress points.old) (progress points.new)
        (walking (code (scope_in scope.now) (plain_expr array.now))
        (key_variable (scope_in scope.now) key.now) (variable (scope_in scope.now) value.now)
        (block (scope_in scope.now) (stmts_of body.now)))) }
{
    let from = lower_expr(alloc, scope, array, points)?;
    let key = key_slot(scope, key);
    let value = scope.variable(value);
    let (head, again) = begin_walk(from, key, value, points)?;
    let mut exits = Vec::new(alloc);
    lower_stmts(alloc, scope, body, points, &mut exits)?;
    end_loop(head, FlowPoint::Jump { next: again }, again, exits, points)?;
    Ok(())
}

// A statement, and how a run may leave it.
#[cycle(statements)]
#[tactic(auto, using(php_syntax::proofs::Views::views), unfolding(flow_code::specs::Statements::stmt_block, flow_code::specs::Completion::completes, flow_code::specs::Completion::jumps_out))]
fn lower_stmt(
    alloc: Global,
    scope: &FunctionScope<'_>,
    stmt: &Stmt,
    points: &mut PointBuilder,
    exits: &mut Vec<Exit>,
) -> Result<Ways, LoweringError>
    ensures points { OnOk result
        (Drafts (progress points.old) (progress points.new) exits.old.items exits.new.items
        (stmt_block (scope_in scope.now) (plain_stmt stmt.now))) }
    ensures completes { IfOk result (λ ways. ways.completes ≡ completes (plain_stmt stmt.now)) }
    ensures jumps { IfOk result (λ ways. ways.jumps_out ≡ jumps_out (plain_stmt stmt.now)) }
{
    let on = Ways {
        completes: true,
        jumps_out: false,
    };
    let end = Ways {
        completes: false,
        jumps_out: false,
    };
    let jump = Ways {
        completes: false,
        jumps_out: true,
    };
    match stmt {
        Stmt::Inline(bytes) => {
            lower_inline(alloc, bytes, points)?;
            Ok(on)
        }
        Stmt::Echo(exprs) => {
            lower_echo(alloc, scope, exprs.as_slice(), points)?;
            Ok(on)
        }
        Stmt::Run(expr) => {
            lower_run(alloc, scope, expr, points)?;
            Ok(on)
        }
        Stmt::If(arms, otherwise) => {
            let ways = lower_if(
                alloc,
                scope,
                arms.as_slice(),
                otherwise.as_slice(),
                points,
                exits,
            )?;
            Ok(ways)
        }
        Stmt::While(test, body) => {
            lower_while(alloc, scope, test, body.as_slice(), points)?;
            Ok(on)
        }
        Stmt::DoWhile(body, test) => {
            lower_do(alloc, scope, body.as_slice(), test, points)?;
            Ok(on)
        }
        Stmt::For(begin, test, next, body) => {
            let (begin, next) = (begin.as_slice(), next.as_slice());
            lower_for(alloc, scope, begin, test, next, body.as_slice(), points)?;
            Ok(on)
        }
        Stmt::Each(array, key, value, body) => {
            lower_each(alloc, scope, array, key, value, body.as_slice(), points)?;
            Ok(on)
        }
        Stmt::Break => {
            put_break(points, exits)?;
            Ok(jump)
        }
        Stmt::Continue => {
            put_continue(points, exits)?;
            Ok(jump)
        }
        Stmt::Return(value) => {
            lower_return(alloc, scope, value, points)?;
            Ok(end)
        }
        Stmt::Include(_) => Ok(on),
        Stmt::Quit(value) => {
            lower_quit(alloc, scope, value, points)?;
            Ok(end)
        }
    }
}
