//! Defaults of parameters.

ghost use Rattle.std.specs.Prelude.{◌≡◌, map, MatchOption, IfOk};
ghost use Rattle.php_syntax.specs.Trees.{plain_expr, maybe_of, some_expr, neg_expr, int_expr, params_of_list};
ghost use Rattle.plain_values.specs.Plain.{Plain};
ghost use Rattle.php_values.specs.View.{plain_of};
ghost use Rattle.script_meaning.specs.Programs.{literal_value};
ghost use Rattle.flow_code.specs.View.{slot_number};
ghost use Rattle.flow_code.specs.Expressions.{default_code, default_codes};
ghost use Rattle.flow_lowering.specs.View.{progress};
ghost use Rattle.flow_lowering.specs.Emits.{Emits};
ghost use Rattle.script_meaning.specs.Literals.{IsNoNegative};

use crate::error::LoweringError;
use flow_code::Work;
use flow_lowering::PointBuilder;
use flow_lowering::values::{Gives, lower_value, operation_on_one, text_value};
use php_syntax::tree::{Expr, Param};
use php_values::Value;
use script_meaning::{Literal, literal_negative, unsigned_literal};
use std::alloc::Global;
use text_base::limits::TEXT_LIMIT;
use text_base::{Bytes, Slot};

// A text literal as a value.
fn checked_text(alloc: Global, text: &Bytes) -> Result<Value, LoweringError>
    ensures { IfOk result (λ value. plain_of value ≡ Plain.text text.now) }
{
    if text.as_slice().len() > TEXT_LIMIT {
        return Err(LoweringError::LongText);
    }
    let value = text_value(alloc, text)?;
    Ok(value)
}

// The value of a literal that has no sign before it.
#[tactic(auto, unfolding(script_meaning::specs::Literals::plain_literal))]
fn literal_of(alloc: Global, expr: &Expr) -> Result<Value, LoweringError>
    requires { IsNoNegative (plain_expr expr.now) }
    ensures { IfOk result (λ value. plain_of value ≡ literal_value (plain_expr expr.now)) }
{
    match unsigned_literal(expr) {
        Literal::Null => Ok(Value::Null),
        Literal::Flag(truth) => Ok(Value::Flag(truth)),
        Literal::Int(number) => Ok(Value::Int(number)),
        Literal::Text(text) => checked_text(alloc, text),
    }
}

// `-` and an integer, as a default.
#[tactic(auto, using(flow_lowering::proofs::EmitLemmas::emits_computed), unfolding(flow_code::specs::Expressions::default_code))]
fn lower_negative(
    alloc: Global,
    number: i64,
    points: &mut PointBuilder,
) -> Result<Slot, LoweringError>
    ensures { IfOk result
        (λ slot. Emits (progress points.old) (progress points.new)
        (default_code (some_expr (neg_expr (int_expr number)))) slot.0) }
{
    let operand = lower_value(Value::Int(number), points)?;
    let slot = operation_on_one(alloc, Work::Neg, Gives::Number, operand, points)?;
    Ok(slot)
}

// A default, which is a literal.
#[tactic(auto, unfolding(flow_code::specs::Expressions::default_code))]
fn lower_default(
    alloc: Global,
    default: &Option<Expr>,
    points: &mut PointBuilder,
) -> Result<Slot, LoweringError>
    ensures { IfOk result
        (λ slot. Emits (progress points.old) (progress points.new)
        (default_code (maybe_of default.now)) slot.0) }
{
    match default {
        None => {
            let slot = lower_value(Value::Null, points)?;
            Ok(slot)
        }
        Some(expr) => lower_constant(alloc, expr, points),
    }
}

// A literal as a default.
fn lower_constant(
    alloc: Global,
    expr: &Expr,
    points: &mut PointBuilder,
) -> Result<Slot, LoweringError>
    ensures { IfOk result
        (λ slot. Emits (progress points.old) (progress points.new)
        (default_code (some_expr (plain_expr expr.now))) slot.0) }
{
    match literal_negative(expr) {
        Some(number) => lower_negative(alloc, number, points),
        None => {
            let value = literal_of(alloc, expr)?;
            let slot = lower_value(value, points)?;
            Ok(slot)
        }
    }
}

/// The defaults of parameters.
pub fn lower_defaults(
    alloc: Global,
    params: &[Param],
    points: &mut PointBuilder,
) -> Result<Vec<Slot>, LoweringError>
    ensures { IfOk result
        (λ slots. Emits (progress points.old) (progress points.new)
        (default_codes (params_of_list params.now)) (map slot_number slots.items)) }
{
    let mut slots = Vec::new(alloc);
    for param in params {
        let slot = lower_default(alloc, &param.default, points)?;
        slots.push(slot)?;
    }
    Ok(slots)
}
