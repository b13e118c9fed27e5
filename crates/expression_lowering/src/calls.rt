//! Calls, whose arguments are lowered before.

ghost use Rattle.std.specs.Prelude.{◌≡◌, ℕ, List, ◌++◌, map, take, drop, length, vec_len, IfOk};
ghost use Rattle.php_syntax.specs.Trees.{exprs_of, params_of_list};
ghost use Rattle.builtin_meaning.specs.Names.{builtin_named};
ghost use Rattle.flow_code.specs.View.{slot_number};
ghost use Rattle.flow_code.specs.Code.{Code};
ghost use Rattle.flow_code.specs.Expressions.{default_codes, called, call_own, call_code, function_in};
ghost use Rattle.flow_lowering.specs.View.{progress};
ghost use Rattle.flow_lowering.specs.Emits.{Progress, Emits};
ghost use Rattle.flow_lowering.specs.ScopeView.{scope_in};

use crate::builtins::builtin_source;
use crate::defaults::lower_defaults;
use crate::error::LoweringError;
use builtin_meaning::Builtin;
use flow_code::Source;
use flow_lowering::{FunctionScope, PointBuilder};
use php_syntax::tree::{Expr, Param};
use php_values::Value;
use std::alloc::Global;
use text_base::{Bytes, NoMemory, Slot};

// The parameters behind so many.
#[tactic(auto, using(crate::proofs::CallLemmas::params_behind, crate::proofs::CallLemmas::params_past))]
fn params_behind(params: &[Param], count: usize) -> &[Param]
    ensures { params_of_list result.now ≡ drop count (params_of_list params.now) }
{
    if count < params.len() {
        params.split_at(count).1
    } else {
        params.split_at(params.len()).1
    }
}

// The values of a call: those of the arguments up to the number of parameters, and the defaults.
#[tactic(auto, using(crate::proofs::CallLemmas::values_of_call))]
fn values_of_call(
    params: usize,
    mut slots: Vec<Slot>,
    defaults: &[Slot],
) -> Result<Vec<Slot>, NoMemory>
    ensures { IfOk result
        (λ values. map slot_number values.items ≡ take params (map slot_number slots.items)
        ++ map slot_number defaults.now) }
{
    slots.truncate(params);
    slots.extend_from_slice(defaults)?;
    Ok(slots)
}

// A call of a function of the script: one value for each of its parameters, those of the arguments
// first.
fn call_function(
    alloc: Global,
    number: u64,
    params: &[Param],
    count: usize,
    slots: Vec<Slot>,
    points: &mut PointBuilder,
) -> Result<Slot, LoweringError>
    ensures { IfOk result
        (λ slot. (start : Progress) (args : Code (List ℕ))
        → Emits start (progress points.old) args (map slot_number slots.items) →
        Emits start (progress points.new)
        (called number (length params.now) args
        (default_codes (drop count (params_of_list params.now)))) slot.0) }
{
    let behind = params_behind(params, count);
    let defaults = lower_defaults(alloc, behind, points)?;
    let values = values_of_call(params.len(), slots, defaults.as_slice())?;
    let slot = points.call(number, values)?;
    Ok(slot)
}

// A call of what is none of PHP's functions.
#[tactic(auto, unfolding(flow_code::specs::Expressions::call_own))]
fn finish_own(
    alloc: Global,
    scope: &FunctionScope<'_>,
    name: &Bytes,
    count: usize,
    slots: Vec<Slot>,
    points: &mut PointBuilder,
) -> Result<Slot, LoweringError>
    ensures { IfOk result
        (λ slot. (start : Progress) (args : Code (List ℕ))
        → Emits start (progress points.old) args (map slot_number slots.items) →
        Emits start (progress points.new)
        (call_own (function_in 1 (scope_in scope.now).functions name.now) count args) slot.0) }
{
    match scope.function(name) {
        Some(found) => {
            let params = found.1.params.as_slice();
            let slot = call_function(alloc, found.0, params, count, slots, points)?;
            Ok(slot)
        }
        None => {
            let slot = points.compute(Source::Lit(Value::Null))?;
            Ok(slot)
        }
    }
}

/// The end of a call, whose arguments have these slots: behind the code of the arguments it is the
/// code of the call.
pub fn finish_call(
    alloc: Global,
    scope: &FunctionScope<'_>,
    name: &Bytes,
    arguments: &[Expr],
    slots: Vec<Slot>,
    points: &mut PointBuilder,
) -> Result<Slot, LoweringError>
    requires { vec_len slots ≡ length arguments.now }
    ensures { IfOk result
        (λ slot. (start : Progress) (args : Code (List ℕ))
        → Emits start (progress points.old) args (map slot_number slots.items) →
        Emits start (progress points.new)
        (call_code (builtin_named name.now)
        (function_in 1 (scope_in scope.now).functions name.now) (exprs_of arguments.now) args)
        slot.0) }
{
    match Builtin::of(name.as_slice()) {
        Some(builtin) => {
            let source = builtin_source(alloc, builtin, arguments, slots)?;
            let slot = points.compute(source)?;
            Ok(slot)
        }
        None => {
            let slot = finish_own(alloc, scope, name, arguments.len(), slots, points)?;
            Ok(slot)
        }
    }
}
