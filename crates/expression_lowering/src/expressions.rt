//! Expressions.

ghost use Rattle.std.specs.Prelude.{◌≡◌, [], length, vec_len, map, true, false, IfOk};
ghost use Rattle.php_syntax.specs.Trees.{plain_expr, exprs_of, items_of, path_of, maybe_of, target_name, target_path, update_expr, member_expr, array_expr, join_expr, isset_expr, assign_expr, call_expr};
ghost use Rattle.flow_code.specs.View.{slot_number, plain_item, plain_key_ref, plain_maybe_key};
ghost use Rattle.flow_code.specs.Code.{left};
ghost use Rattle.flow_code.specs.Expressions.{code, codes, maybe_key, path_code, no_item, the_items, items_code, key_code, of_one, of_two, first_there, chosen, chosen_itself, variable, length_of_path, old_value, updated_at, filled};
ghost use Rattle.flow_lowering.specs.View.{progress};
ghost use Rattle.flow_lowering.specs.Emits.{Progress, Emits};
ghost use Rattle.flow_lowering.specs.ScopeView.{scope_in};
ghost use Rattle.flow_lowering.specs.Forms.{connected, source_for};

use crate::alone::{lower_literal, lower_name, lower_request, lower_step, lower_text, number_key};
use crate::{LoweringError, finish_call};
use flow_code::{KeyRef, Source, Work};
use flow_lowering::choices::{begin_itself, begin_there, branching, finish_copy, finish_truth};
use flow_lowering::rows::{empty_array, finish_join, put_item};
use flow_lowering::values::{Gives, operation_on_one, operation_on_two};
use flow_lowering::writes::{finish_filled, finish_updated, lower_members, write};
use flow_lowering::{FunctionScope, PointBuilder};
use php_syntax::tree::{Expr, Target, UpdateSign};
use php_values::Value;
use script_meaning::literal_text;
use std::alloc::Global;
use text_base::{Bytes, Slot};

/// Expressions, one behind the other.
#[cycle(expressions)]
pub fn lower_exprs(
    alloc: Global,
    scope: &FunctionScope<'_>,
    exprs: &[Expr],
    points: &mut PointBuilder,
) -> Result<Vec<Slot>, LoweringError>
    ensures emits { IfOk result
        (λ slots. Emits (progress points.old) (progress points.new)
        (codes (scope_in scope.now) (exprs_of exprs.now)) (map slot_number slots.items)) }
    ensures long { IfOk result (λ slots. vec_len slots ≡ length exprs.now) }
{
    let mut slots = Vec::new(alloc);
    for expr in exprs {
        let slot = lower_expr(alloc, scope, expr, points)?;
        slots.push(slot)?;
    }
    Ok(slots)
}

// A key, which has no point of its own where it is a literal.
#[cycle(expressions)]
fn lower_key(
    alloc: Global,
    scope: &FunctionScope<'_>,
    key: &Expr,
    points: &mut PointBuilder,
) -> Result<KeyRef, LoweringError>
    ensures { IfOk result
        (λ k. Emits (progress points.old) (progress points.new)
        (key_code (plain_expr key.now) (code (scope_in scope.now) (plain_expr key.now)))
        (plain_key_ref k)) }
{
    if let Some(literal) = number_key(key) {
        return Ok(literal);
    }
    if let Some(text) = literal_text(key) {
        let text = text.copy(alloc)?;
        return Ok(KeyRef::Text(text));
    }
    let slot = lower_expr(alloc, scope, key, points)?;
    Ok(KeyRef::Read(slot))
}

// A key that may be left out.
#[cycle(expressions)]
#[tactic(auto, using(flow_lowering::proofs::EmitLemmas::emits_left, flow_lowering::proofs::EmitLemmas::emits_known), unfolding(flow_code::specs::Expressions::maybe_key))]
fn lower_maybe_key(
    alloc: Global,
    scope: &FunctionScope<'_>,
    key: &Option<Expr>,
    points: &mut PointBuilder,
) -> Result<Option<KeyRef>, LoweringError>
    ensures { IfOk result
        (λ k. Emits (progress points.old) (progress points.new)
        (maybe_key (scope_in scope.now) (maybe_of key.now)) (plain_maybe_key k)) }
{
    match key {
        Some(key) => {
            let key = lower_key(alloc, scope, key, points)?;
            Ok(Some(key))
        }
        None => Ok(None),
    }
}

// The keys of a path.
#[cycle(expressions)]
fn lower_path(
    alloc: Global,
    scope: &FunctionScope<'_>,
    keys: &[Option<Expr>],
    points: &mut PointBuilder,
) -> Result<Vec<Option<KeyRef>>, LoweringError>
    ensures emits { IfOk result
        (λ path. Emits (progress points.old) (progress points.new)
        (path_code (scope_in scope.now) (path_of keys.now)) (map plain_maybe_key path.items)) }
    ensures long { IfOk result (λ path. vec_len path ≡ length keys.now) }
{
    let mut path = Vec::new(alloc);
    for key in keys {
        let lowered = lower_maybe_key(alloc, scope, key, points)?;
        path.push(lowered)?;
    }
    Ok(path)
}

// The items of an array, which are put one by one into the array in a slot, so far without items.
#[cycle(expressions)]
fn lower_items(
    alloc: Global,
    scope: &FunctionScope<'_>,
    items: &[(Option<Expr>, Expr)],
    array: Slot,
    points: &mut PointBuilder,
) -> Result<Vec<(Option<KeyRef>, Slot)>, LoweringError>
    ensures { IfOk result
        (λ lowered. (start : Progress) → Emits start (progress points.old) no_item (array.0, []) →
        Emits start (progress points.new)
        (left (items_code (scope_in scope.now) (items_of items.now) no_item) the_items)
        (map plain_item lowered.items)) }
{
    let mut lowered = Vec::new(alloc);
    let mut made = array;
    for item in items {
        let key = lower_maybe_key(alloc, scope, &item.0, points)?;
        let value = lower_expr(alloc, scope, &item.1, points)?;
        made = put_item(alloc, made, &key, value, points)?;
        lowered.push((key, value))?;
    }
    Ok(lowered)
}

// An operation on one value.
#[cycle(expressions)]
fn lower_one(
    alloc: Global,
    scope: &FunctionScope<'_>,
    work: Work,
    gives: Gives,
    operand: &Expr,
    points: &mut PointBuilder,
) -> Result<Slot, LoweringError>
    ensures { IfOk result
        (λ slot. Emits (progress points.old) (progress points.new)
        (of_one work (source_for gives) (code (scope_in scope.now) (plain_expr operand.now)))
        slot.0) }
{
    let operand = lower_expr(alloc, scope, operand, points)?;
    let slot = operation_on_one(alloc, work, gives, operand, points)?;
    Ok(slot)
}

// An operation on two values.
#[cycle(expressions)]
fn lower_two(
    alloc: Global,
    scope: &FunctionScope<'_>,
    work: Work,
    gives: Gives,
    left: &Expr,
    right: &Expr,
    points: &mut PointBuilder,
) -> Result<Slot, LoweringError>
    ensures { IfOk result (λ slot. Emits (progress points.old) (progress points.new)
        (of_two work (source_for gives) (code (scope_in scope.now) (plain_expr left.now))
        (code (scope_in scope.now) (plain_expr right.now))) slot.0) }
{
    let left = lower_expr(alloc, scope, left, points)?;
    let right = lower_expr(alloc, scope, right, points)?;
    let slot = operation_on_two(alloc, work, gives, left, right, points)?;
    Ok(slot)
}

// `&&` (`both`) and `||`.
#[cycle(expressions)]
fn lower_connected(
    alloc: Global,
    scope: &FunctionScope<'_>,
    left: &Expr,
    right: &Expr,
    both: bool,
    points: &mut PointBuilder,
) -> Result<Slot, LoweringError>
    ensures { IfOk result (λ slot. Emits (progress points.old) (progress points.new)
        (connected both (code (scope_in scope.now) (plain_expr left.now))
        (code (scope_in scope.now) (plain_expr right.now))) slot.0) }
{
    let left = lower_expr(alloc, scope, left, points)?;
    let branch = points.reserve()?;
    let right = lower_expr(alloc, scope, right, points)?;
    let slot = finish_truth(alloc, branch, left, right, both, points)?;
    Ok(slot)
}

// `??`
#[cycle(expressions)]
fn lower_coalesce(
    alloc: Global,
    scope: &FunctionScope<'_>,
    left: &Expr,
    right: &Expr,
    points: &mut PointBuilder,
) -> Result<Slot, LoweringError>
    ensures { IfOk result (λ slot. Emits (progress points.old) (progress points.new)
        (first_there (code (scope_in scope.now) (plain_expr left.now))
        (code (scope_in scope.now) (plain_expr right.now))) slot.0) }
{
    let left = lower_expr(alloc, scope, left, points)?;
    let copy = begin_there(alloc, left, points)?;
    let right = lower_expr(alloc, scope, right, points)?;
    let slot = finish_copy(copy.index, left, right, points)?;
    Ok(slot)
}

// `?:` without a middle.
#[cycle(expressions)]
fn lower_itself(
    alloc: Global,
    scope: &FunctionScope<'_>,
    condition: &Expr,
    other: &Expr,
    points: &mut PointBuilder,
) -> Result<Slot, LoweringError>
    ensures { IfOk result (λ slot. Emits (progress points.old) (progress points.new)
        (chosen_itself (code (scope_in scope.now) (plain_expr condition.now))
        (code (scope_in scope.now) (plain_expr other.now))) slot.0) }
{
    let condition = lower_expr(alloc, scope, condition, points)?;
    let copy = begin_itself(condition, points)?;
    let other = lower_expr(alloc, scope, other, points)?;
    let slot = finish_copy(copy.index, condition, other, points)?;
    Ok(slot)
}

// `?:`
#[cycle(expressions)]
fn lower_choice(
    alloc: Global,
    scope: &FunctionScope<'_>,
    condition: &Expr,
    middle: &Expr,
    other: &Expr,
    points: &mut PointBuilder,
) -> Result<Slot, LoweringError>
    ensures { IfOk result (λ slot. Emits (progress points.old) (progress points.new)
        (chosen (code (scope_in scope.now) (plain_expr condition.now))
        (code (scope_in scope.now) (plain_expr middle.now))
        (code (scope_in scope.now) (plain_expr other.now))) slot.0) }
{
    let condition = lower_expr(alloc, scope, condition, points)?;
    let branch = points.reserve()?;
    let middle = lower_expr(alloc, scope, middle, points)?;
    let copy = points.reserve()?;
    let other = lower_expr(alloc, scope, other, points)?;
    let slot = finish_copy(copy.index, middle, other, points)?;
    let point = branching(condition, branch.behind, copy.behind, true);
    points.replace(branch.index, point);
    Ok(slot)
}

// A member.
#[cycle(expressions)]
fn lower_member(
    alloc: Global,
    scope: &FunctionScope<'_>,
    base: &Expr,
    key: &Expr,
    points: &mut PointBuilder,
) -> Result<Slot, LoweringError>
    ensures { IfOk result
        (λ slot. Emits (progress points.old) (progress points.new)
        (code (scope_in scope.now) (member_expr (plain_expr base.now) (plain_expr key.now))) slot.0) }
{
    let base = lower_expr(alloc, scope, base, points)?;
    let key = lower_key(alloc, scope, key, points)?;
    let slot = points.compute(Source::MemberOf(base, key))?;
    Ok(slot)
}

// An assignment.
#[cycle(expressions)]
fn lower_assign(
    alloc: Global,
    scope: &FunctionScope<'_>,
    target: &Target,
    value: &Expr,
    points: &mut PointBuilder,
) -> Result<Slot, LoweringError>
    ensures { IfOk result (λ slot. Emits (progress points.old) (progress points.new)
        (code (scope_in scope.now)
        (assign_expr (target_name target.now) (target_path target.now) (plain_expr value.now)))
        slot.0) }
{
    let variable = scope.variable(&target.name);
    let path = lower_path(alloc, scope, target.path.as_slice(), points)?;
    let value = lower_expr(alloc, scope, value, points)?;
    write(variable, path, value, points)?;
    Ok(value)
}

// The path of a target, and the old value at its end.
#[cycle(expressions)]
fn lower_old(
    alloc: Global,
    scope: &FunctionScope<'_>,
    target: &Target,
    points: &mut PointBuilder,
) -> Result<(Vec<Option<KeyRef>>, Slot), LoweringError>
    ensures { IfOk result (λ old. Emits (progress points.old) (progress points.new)
        (old_value (variable (scope_in scope.now) (target_name target.now))
        (length_of_path (target_path target.now))
        (path_code (scope_in scope.now) (target_path target.now)))
        (map plain_maybe_key old.0.items, old.1.0)) }
{
    let variable = scope.variable(&target.name);
    let path = lower_path(alloc, scope, target.path.as_slice(), points)?;
    let base = points.compute(Source::Copy(variable))?;
    let old = lower_members(alloc, base, path.as_slice(), points)?;
    Ok((path, old))
}

// `.=` and its like.
#[cycle(expressions)]
fn lower_updated(
    alloc: Global,
    scope: &FunctionScope<'_>,
    sign: UpdateSign,
    target: &Target,
    value: &Expr,
    points: &mut PointBuilder,
) -> Result<Slot, LoweringError>
    ensures { IfOk result (λ slot. Emits (progress points.old) (progress points.new)
        (updated_at sign (variable (scope_in scope.now) (target_name target.now))
        (old_value (variable (scope_in scope.now) (target_name target.now))
        (length_of_path (target_path target.now))
        (path_code (scope_in scope.now) (target_path target.now)))
        (code (scope_in scope.now) (plain_expr value.now))) slot.0) }
{
    let variable = scope.variable(&target.name);
    let (path, old) = lower_old(alloc, scope, target, points)?;
    let right = lower_expr(alloc, scope, value, points)?;
    let slot = finish_updated(alloc, sign, variable, path, old, right, points)?;
    Ok(slot)
}

// `??=`
#[cycle(expressions)]
fn lower_filled(
    alloc: Global,
    scope: &FunctionScope<'_>,
    target: &Target,
    value: &Expr,
    points: &mut PointBuilder,
) -> Result<Slot, LoweringError>
    ensures { IfOk result (λ slot. Emits (progress points.old) (progress points.new)
        (filled (variable (scope_in scope.now) (target_name target.now))
        (old_value (variable (scope_in scope.now) (target_name target.now))
        (length_of_path (target_path target.now))
        (path_code (scope_in scope.now) (target_path target.now)))
        (code (scope_in scope.now) (plain_expr value.now))) slot.0) }
{
    let variable = scope.variable(&target.name);
    let (path, old) = lower_old(alloc, scope, target, points)?;
    let copy = begin_there(alloc, old, points)?;
    let right = lower_expr(alloc, scope, value, points)?;
    let slot = finish_filled(copy.index, variable, path, old, right, points)?;
    Ok(slot)
}

// `.=` and its like, or `??=`.
#[cycle(expressions)]
#[tactic(auto, unfolding(flow_code::specs::Expressions::code, flow_code::specs::Expressions::update_code))]
fn lower_update(
    alloc: Global,
    scope: &FunctionScope<'_>,
    sign: UpdateSign,
    target: &Target,
    value: &Expr,
    points: &mut PointBuilder,
) -> Result<Slot, LoweringError>
    ensures { IfOk result (λ slot. Emits (progress points.old) (progress points.new)
        (code (scope_in scope.now)
        (update_expr sign (target_name target.now) (target_path target.now)
        (plain_expr value.now))) slot.0) }
{
    match sign {
        UpdateSign::Coalesce => lower_filled(alloc, scope, target, value, points),
        UpdateSign::Join | UpdateSign::Add | UpdateSign::Sub | UpdateSign::Mul | UpdateSign::Rem =>
            lower_updated(alloc, scope, sign, target, value, points),
    }
}

// An array literal.
#[cycle(expressions)]
fn lower_array(
    alloc: Global,
    scope: &FunctionScope<'_>,
    items: &[(Option<Expr>, Expr)],
    points: &mut PointBuilder,
) -> Result<Slot, LoweringError>
    ensures { IfOk result
        (λ slot. Emits (progress points.old) (progress points.new)
        (code (scope_in scope.now) (array_expr (items_of items.now))) slot.0) }
{
    let array = empty_array(alloc, points)?;
    let items = lower_items(alloc, scope, items, array, points)?;
    let slot = points.compute(Source::ArrayOf(items))?;
    Ok(slot)
}

// A chain of `.`, or a text with interpolation.
#[cycle(expressions)]
fn lower_join(
    alloc: Global,
    scope: &FunctionScope<'_>,
    parts: &[Expr],
    points: &mut PointBuilder,
) -> Result<Slot, LoweringError>
    ensures { IfOk result
        (λ slot. Emits (progress points.old) (progress points.new)
        (code (scope_in scope.now) (join_expr (exprs_of parts.now))) slot.0) }
{
    let slots = lower_exprs(alloc, scope, parts, points)?;
    let slot = finish_join(alloc, parts, slots, points)?;
    Ok(slot)
}

// `isset` of operands.
#[cycle(expressions)]
fn lower_isset(
    alloc: Global,
    scope: &FunctionScope<'_>,
    parts: &[Expr],
    points: &mut PointBuilder,
) -> Result<Slot, LoweringError>
    ensures { IfOk result
        (λ slot. Emits (progress points.old) (progress points.new)
        (code (scope_in scope.now) (isset_expr (exprs_of parts.now))) slot.0) }
{
    let args = lower_exprs(alloc, scope, parts, points)?;
    let work = Work::Isset;
    let slot = points.compute(Source::Truth { work, args })?;
    Ok(slot)
}

// A call.
#[cycle(expressions)]
fn lower_call(
    alloc: Global,
    scope: &FunctionScope<'_>,
    name: &Bytes,
    arguments: &[Expr],
    points: &mut PointBuilder,
) -> Result<Slot, LoweringError>
    ensures { IfOk result
        (λ slot. Emits (progress points.old) (progress points.new)
        (code (scope_in scope.now) (call_expr name.now (exprs_of arguments.now))) slot.0) }
{
    let slots = lower_exprs(alloc, scope, arguments, points)?;
    let slot = finish_call(alloc, scope, name, arguments, slots, points)?;
    Ok(slot)
}

/// An expression, whose value is then in the slot.
#[cycle(expressions)]
#[tactic(auto, using(php_syntax::proofs::Views::views), unfolding(flow_code::specs::Expressions::code, flow_code::specs::Expressions::update_code))]
pub fn lower_expr(
    alloc: Global,
    scope: &FunctionScope<'_>,
    expr: &Expr,
    points: &mut PointBuilder,
) -> Result<Slot, LoweringError>
    ensures { IfOk result
        (λ slot. Emits (progress points.old) (progress points.new)
        (code (scope_in scope.now) (plain_expr expr.now)) slot.0) }
{
    match expr {
        Expr::Null => lower_literal(Value::Null, points),
        Expr::Flag(truth) => lower_literal(Value::Flag(*truth), points),
        Expr::Int(number) => lower_literal(Value::Int(*number), points),
        Expr::Text(text) => {
            let slot = lower_text(alloc, text, points)?;
            Ok(slot)
        }
        Expr::Var(name) => lower_name(scope, name, points),
        Expr::Super(name) => {
            let slot = lower_request(*name, points)?;
            Ok(slot)
        }
        Expr::Member(base, key) => lower_member(alloc, scope, base, key, points),
        Expr::ArrayOf(items) => lower_array(alloc, scope, items.as_slice(), points),
        Expr::Join(parts) => lower_join(alloc, scope, parts.as_slice(), points),
        Expr::Neg(operand) => lower_one(alloc, scope, Work::Neg, Gives::Number, operand, points),
        Expr::Not(operand) => lower_one(alloc, scope, Work::Not, Gives::Truth, operand, points),
        Expr::Arith(sign, left, right) => {
            let work = Work::Arith(*sign);
            lower_two(alloc, scope, work, Gives::Number, left, right, points)
        }
        Expr::Compare(sign, left, right) => {
            let work = Work::Compare(*sign);
            lower_two(alloc, scope, work, Gives::Truth, left, right, points)
        }
        Expr::And(left, right) => lower_connected(alloc, scope, left, right, true, points),
        Expr::Or(left, right) => lower_connected(alloc, scope, left, right, false, points),
        Expr::Coalesce(left, right) => lower_coalesce(alloc, scope, left, right, points),
        Expr::Choice(condition, middle, other) => match middle {
            None => {
                let slot = lower_itself(alloc, scope, condition, other, points)?;
                Ok(slot)
            }
            Some(middle) => {
                let slot = lower_choice(alloc, scope, condition, middle, other, points)?;
                Ok(slot)
            }
        },
        Expr::Isset(places) => lower_isset(alloc, scope, places.as_slice(), points),
        Expr::Empty(place) => lower_one(alloc, scope, Work::Empty, Gives::Truth, place, points),
        Expr::Assign(target, value) => lower_assign(alloc, scope, target, value, points),
        Expr::Update(sign, target, value) => {
            let slot = lower_update(alloc, scope, *sign, target, value, points)?;
            Ok(slot)
        }
        Expr::Step { name, up, before } => lower_step(alloc, scope, name, *up, *before, points),
        Expr::Call(name, arguments) => lower_call(alloc, scope, name, arguments.as_slice(), points),
    }
}
