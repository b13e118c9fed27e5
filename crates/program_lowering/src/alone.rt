//! Statements that have no body. None is inlined, so that none of their values keeps room on the
//! stack while bodies are lowered.

ghost use Rattle.std.specs.Prelude.{◌≡◌, ◌+◌, IfOk, OnOk};
ghost use Rattle.php_syntax.specs.Trees.{plain_expr, exprs_of, maybe_of};
ghost use Rattle.flow_code.specs.Code.{no_code, run_code, ending};
ghost use Rattle.flow_code.specs.Points.{print_point, echo_point, return_point, quit_point};
ghost use Rattle.flow_code.specs.View.{maybe_slot};
ghost use Rattle.flow_code.specs.Expressions.{code};
ghost use Rattle.flow_code.specs.Statements.{echo_block, return_block, quit_block, test_of, test_code, key_variable};
ghost use Rattle.flow_lowering.specs.View.{progress};
ghost use Rattle.flow_lowering.specs.ScopeView.{scope_in};
ghost use Rattle.flow_lowering.specs.Blocks.{Lays, Opens};

use expression_lowering::{LoweringError, lower_expr};
use flow_code::FlowPoint;
use flow_lowering::values::lower_value;
use flow_lowering::{FunctionScope, Head, PointBuilder, begin_test};
use php_syntax::tree::Expr;
use php_values::Value;
use std::alloc::Global;
use text_base::{Bytes, Slot};

/// Bytes outside PHP.
#[inline(never)]
pub(crate) fn lower_inline(
    alloc: Global,
    bytes: &Bytes,
    points: &mut PointBuilder,
) -> Result<(), LoweringError>
    ensures { OnOk result
        (Lays (progress points.old) (progress points.new)
        (ending no_code (λ none to p. print_point bytes.now (p + 1)))) }
{
    let next = points.ahead(1);
    let bytes = bytes.copy(alloc)?;
    points.push(FlowPoint::Print { bytes, next })?;
    Ok(())
}

// An operand of `echo`.
fn lower_printed(
    alloc: Global,
    scope: &FunctionScope<'_>,
    expr: &Expr,
    points: &mut PointBuilder,
) -> Result<(), LoweringError>
    ensures { OnOk result (Lays (progress points.old) (progress points.new)
        (ending (code (scope_in scope.now) (plain_expr expr.now)) (λ x to p. echo_point x (p + 1)))) }
{
    let slot = lower_expr(alloc, scope, expr, points)?;
    let next = points.ahead(1);
    points.push(FlowPoint::Echo { slot, next })?;
    Ok(())
}

/// `echo`
#[inline(never)]
pub(crate) fn lower_echo(
    alloc: Global,
    scope: &FunctionScope<'_>,
    exprs: &[Expr],
    points: &mut PointBuilder,
) -> Result<(), LoweringError>
    ensures { OnOk result
        (Lays (progress points.old) (progress points.new)
        (echo_block (scope_in scope.now) (exprs_of exprs.now))) }
{
    for expr in exprs {
        lower_printed(alloc, scope, expr, points)?;
    }
    Ok(())
}

/// An expression as a statement.
#[inline(never)]
pub(crate) fn lower_run(
    alloc: Global,
    scope: &FunctionScope<'_>,
    expr: &Expr,
    points: &mut PointBuilder,
) -> Result<(), LoweringError>
    ensures { OnOk result
        (Lays (progress points.old) (progress points.new)
        (run_code (code (scope_in scope.now) (plain_expr expr.now)))) }
{
    lower_expr(alloc, scope, expr, points)?;
    Ok(())
}

/// `return`
#[inline(never)]
pub(crate) fn lower_return(
    alloc: Global,
    scope: &FunctionScope<'_>,
    value: &Option<Expr>,
    points: &mut PointBuilder,
) -> Result<(), LoweringError>
    ensures { OnOk result
        (Lays (progress points.old) (progress points.new)
        (return_block (scope_in scope.now) (maybe_of value.now))) }
{
    match value {
        Some(expr) => {
            let slot = lower_expr(alloc, scope, expr, points)?;
            points.push(FlowPoint::Return { slot })?;
            Ok(())
        }
        None => {
            let slot = lower_value(Value::Null, points)?;
            points.push(FlowPoint::Return { slot })?;
            Ok(())
        }
    }
}

/// `exit`
#[inline(never)]
pub(crate) fn lower_quit(
    alloc: Global,
    scope: &FunctionScope<'_>,
    value: &Option<Expr>,
    points: &mut PointBuilder,
) -> Result<(), LoweringError>
    ensures { OnOk result
        (Lays (progress points.old) (progress points.new)
        (quit_block (scope_in scope.now) (maybe_of value.now))) }
{
    match value {
        Some(expr) => {
            let slot = lower_expr(alloc, scope, expr, points)?;
            points.push(FlowPoint::Quit { slot: Some(slot) })?;
            Ok(())
        }
        None => {
            points.push(FlowPoint::Quit { slot: None })?;
            Ok(())
        }
    }
}

/// The test of a loop.
#[inline(never)]
pub(crate) fn lower_test(
    alloc: Global,
    scope: &FunctionScope<'_>,
    test: &Expr,
    points: &mut PointBuilder,
) -> Result<Head, LoweringError>
    ensures { IfOk result
        (λ head. Opens (progress points.old) (progress points.new) head
        (test_of (code (scope_in scope.now) (plain_expr test.now)))) }
{
    let slot = lower_expr(alloc, scope, test, points)?;
    let head = begin_test(slot, points)?;
    Ok(head)
}

/// The test of a loop, which may be left out.
#[inline(never)]
pub(crate) fn lower_maybe_test(
    alloc: Global,
    scope: &FunctionScope<'_>,
    test: &Option<Expr>,
    points: &mut PointBuilder,
) -> Result<Head, LoweringError>
    ensures { IfOk result
        (λ head. Opens (progress points.old) (progress points.new) head
        (test_code (scope_in scope.now) (maybe_of test.now))) }
{
    match test {
        Some(test) => {
            let head = lower_test(alloc, scope, test, points)?;
            Ok(head)
        }
        None => Ok(Head::Always),
    }
}

/// The slot of the variable of the keys of a `foreach`, if it has one.
pub(crate) fn key_slot(scope: &FunctionScope<'_>, key: &Option<Bytes>) -> Option<Slot>
    ensures { maybe_slot result ≡ key_variable (scope_in scope.now) key.now }
{
    match key {
        Some(name) => {
            let slot = scope.variable(name);
            Some(slot)
        }
        None => None,
    }
}
