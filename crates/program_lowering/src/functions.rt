//! Functions, and functions in a row.

ghost use Rattle.std.specs.Prelude.{◌≡◌, ◌≤◌, ◌<◌, ◌+◌, ℕ, List, [], ◌∷◌, length, map, IfOk};
ghost use Rattle.php_syntax.specs.Trees.{PlainParam, functions_of_list, params_of_list};
ghost use Rattle.flow_code.specs.Expressions.{variable};
ghost use Rattle.flow_code.specs.Flat.{flat_function, flat_functions};
ghost use Rattle.flow_code.specs.View.{plain_flow_function, slot_number};
ghost use Rattle.flow_lowering.specs.Emits.{START_LIMIT};
ghost use Rattle.flow_lowering.specs.ScopeView.{scope_in};
ghost use Rattle.program_lowering.specs.Bodies.{function_with};

use crate::bodies::lower_body;
use crate::variables_of;
use expression_lowering::LoweringError;
use flow_code::FlowFunction;
use flow_lowering::FunctionScope;
use numbered_sets::count;
use php_syntax::tree::{FunctionDef, Param, Stmt};
use std::alloc::Global;
use text_base::{NoMemory, Point, Slot};

/// How far the numbers of points and slots may go where a function begins. No memory holds so many.
const NUMBER_LIMIT: u64 = 4_611_686_018_427_387_904;

// The number behind so many.
fn behind(first: u64, count: u64) -> Result<u64, NoMemory>
    ensures is { IfOk result (λ next. next ≡ first + count) }
    ensures within { IfOk result (λ next. next ≤ START_LIMIT) }
{
    match first.checked_add(count) {
        Some(next) => {
            if next <= NUMBER_LIMIT {
                Ok(next)
            } else {
                Err(NoMemory)
            }
        }
        None => Err(NoMemory),
    }
}

// The slots of parameters.
fn parameter_slots(
    alloc: Global,
    scope: &FunctionScope<'_>,
    params: &[Param],
) -> Result<Vec<Slot>, NoMemory>
    ensures { IfOk result (λ slots. map slot_number slots.items
        ≡ map (λ (p : PlainParam). variable (scope_in scope.now) p.name_of)
        (params_of_list params.now)) }
{
    let mut slots = Vec::new(alloc);
    for param in params {
        let slot = scope.variable(&param.name);
        slots.push(slot)?;
    }
    Ok(slots)
}

// A function with these parameters and this body, whose first point and first slot have these
// numbers.
fn lower_function(
    alloc: Global,
    functions: &[FunctionDef],
    params: &[Param],
    body: &[Stmt],
    point: u64,
    slot: u64,
) -> Result<FlowFunction, LoweringError>
    requires few { length functions.now < 9223372036854775808 }
    requires point { point ≤ START_LIMIT }
    requires slot { slot ≤ START_LIMIT }
    ensures { IfOk result (λ made. (name : List ℕ) → plain_flow_function made
        ≡ flat_function (functions_of_list functions.now) (function_with name params.now body.now)
        point slot) }
{
    let names = variables_of(alloc, params, body)?;
    let free = behind(slot, count(&names) as u64)?;
    let scope = FunctionScope {
        base: slot,
        names: &names,
        functions,
    };
    let params = parameter_slots(alloc, &scope, params)?;
    let points = lower_body(alloc, &scope, body, point, free)?;
    let slots = points.slot - slot;
    Ok(FlowFunction {
        entry: Point(point),
        params,
        first_slot: Slot(slot),
        slots,
        first_point: Point(point),
        points: points.into_points(),
    })
}

/// All functions of a program: first the statements outside functions, then the others in their
/// order.
pub fn lower_functions(
    alloc: Global,
    main: &[Stmt],
    functions: &[FunctionDef],
) -> Result<Vec<FlowFunction>, LoweringError>
    requires few { length functions.now < 9223372036854775808 }
    ensures { IfOk result (λ made. map plain_flow_function made.items
        ≡ flat_functions (functions_of_list functions.now)
        (function_with [] [] main.now ∷ functions_of_list functions.now) 0 0) }
{
    let first = lower_function(alloc, functions, &[], main, 0, 0)?;
    let mut point = behind(0, first.points.len() as u64)?;
    let mut slot = behind(0, first.slots)?;
    let mut made = Vec::new(alloc);
    made.push(first)?;
    for function in functions {
        let (params, body) = (function.params.as_slice(), function.body.as_slice());
        let next = lower_function(alloc, functions, params, body, point, slot)?;
        point = behind(point, next.points.len() as u64)?;
        slot = behind(slot, next.slots)?;
        made.push(next)?;
    }
    Ok(made)
}
