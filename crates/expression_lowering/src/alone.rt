//! Expressions that have no part.

ghost use Rattle.std.specs.Prelude.{◌≡◌, ℕ, IfOk, MatchOption};
ghost use Rattle.php_syntax.specs.Trees.{plain_expr, var_expr, text_expr, super_expr, step_expr};
ghost use Rattle.php_values.specs.View.{plain_of};
ghost use Rattle.flow_code.specs.Code.{Code, known};
ghost use Rattle.script_meaning.specs.Literals.{IsNoNumber};
ghost use Rattle.flow_code.specs.View.{plain_key_ref};
ghost use Rattle.flow_code.specs.Expressions.{Scope, code, key_code, literal};
ghost use Rattle.flow_lowering.specs.View.{progress};
ghost use Rattle.flow_lowering.specs.Emits.{Emits};
ghost use Rattle.flow_lowering.specs.ScopeView.{scope_in};

use crate::LoweringError;
use flow_code::{KeyRef, Source};
use flow_lowering::values::{lower_source, lower_value, text_value};
use flow_lowering::writes::{lower_step_after, lower_step_before};
use flow_lowering::{FunctionScope, PointBuilder};
use php_syntax::tree::{Expr, SuperName};
use php_values::Value;
use std::alloc::Global;
use text_base::limits::TEXT_LIMIT;
use text_base::{Bytes, Slot};

/// An integer that stands as a key.
#[tactic(auto, using(php_syntax::proofs::Views::views), unfolding(flow_code::specs::Expressions::key_code))]
pub(crate) fn number_key(key: &Expr) -> Option<KeyRef>
    ensures { MatchOption result (IsNoNumber (plain_expr key.now))
        (λ k. (a : Code ℕ) → key_code (plain_expr key.now) a ≡ known (plain_key_ref k)) }
{
    match key {
        Expr::Int(number) => Some(KeyRef::Int(*number)),
        _ => None,
    }
}

/// A value that stands in the script.
pub(crate) fn lower_literal(value: Value, points: &mut PointBuilder) -> Result<Slot, LoweringError>
    ensures { IfOk result
        (λ slot. Emits (progress points.old) (progress points.new) (literal (plain_of value))
        slot.0) }
{
    let slot = lower_value(value, points)?;
    Ok(slot)
}

/// A text literal.
#[tactic(auto, unfolding(flow_code::specs::Expressions::code))]
pub(crate) fn lower_text(
    alloc: Global,
    text: &Bytes,
    points: &mut PointBuilder,
) -> Result<Slot, LoweringError>
    ensures { IfOk result
        (λ slot. (w : Scope)
        → Emits (progress points.old) (progress points.new) (code w (text_expr text.now)) slot.0) }
{
    if text.as_slice().len() > TEXT_LIMIT {
        return Err(LoweringError::LongText);
    }
    let value = text_value(alloc, text)?;
    let slot = lower_value(value, points)?;
    Ok(slot)
}

/// A variable.
#[tactic(auto, unfolding(flow_code::specs::Expressions::code))]
pub(crate) fn lower_name(
    scope: &FunctionScope<'_>,
    name: &Bytes,
    points: &mut PointBuilder,
) -> Result<Slot, LoweringError>
    ensures { IfOk result
        (λ slot. Emits (progress points.old) (progress points.new)
        (code (scope_in scope.now) (var_expr name.now)) slot.0) }
{
    let variable = scope.variable(name);
    let slot = lower_source(Source::Copy(variable), points)?;
    Ok(slot)
}

/// A variable of the request.
#[tactic(auto, unfolding(flow_code::specs::Expressions::code))]
pub(crate) fn lower_request(
    name: SuperName,
    points: &mut PointBuilder,
) -> Result<Slot, LoweringError>
    ensures { IfOk result
        (λ slot. (w : Scope)
        → Emits (progress points.old) (progress points.new) (code w (super_expr name)) slot.0) }
{
    let slot = lower_source(Source::Super(name), points)?;
    Ok(slot)
}

/// `++` and `--` of a variable.
#[tactic(auto, unfolding(flow_code::specs::Expressions::code))]
pub(crate) fn lower_step(
    alloc: Global,
    scope: &FunctionScope<'_>,
    name: &Bytes,
    up: bool,
    before: bool,
    points: &mut PointBuilder,
) -> Result<Slot, LoweringError>
    ensures { IfOk result
        (λ slot. Emits (progress points.old) (progress points.new)
        (code (scope_in scope.now) (step_expr name.now up before)) slot.0) }
{
    let variable = scope.variable(name);
    if before {
        let slot = lower_step_before(alloc, variable, up, points)?;
        Ok(slot)
    } else {
        let slot = lower_step_after(alloc, variable, up, points)?;
        Ok(slot)
    }
}
