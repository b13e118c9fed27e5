//! The parameters of functions.

ghost use Rattle.std.specs.Prelude.{◌≡◌, map, IfOk, OnOk, slice_get, ◌&&◌};
ghost use Rattle.flow_code.specs.View.{plain_flow_function, slot_number};
ghost use Rattle.loose_sets.specs.Functions as loose;
ghost use Rattle.extraction.specs.Params as spec;

use flow_code::FlowFunction;
use indexmap::IndexSet;
use numbered_sets::number;
use std::alloc::Global;
use text_base::{NoMemory, Slot};

// Those of one function.
fn put_params(
    keys: &mut IndexSet<(u64, u64)>,
    function: u64,
    params: &[Slot],
) -> Result<(), NoMemory>
    ensures { OnOk result
        (spec.Puts keys.old.keys keys.new.keys function (map slot_number params.now)) }
{
    for param in params {
        number(keys, (function, param.0))?;
    }
    Ok(())
}

/// Each parameter of each function, by the number of the function. Linear in the parameters.
pub fn params_of(
    alloc: Global,
    functions: &[FlowFunction],
) -> Result<IndexSet<(u64, u64)>, NoMemory>
    ensures { IfOk result (λ keys. spec.AreParams (map plain_flow_function functions.now) keys.keys) }
{
    let mut keys = IndexSet::new(alloc);
    for (place, function) in functions.iter().enumerate() {
        put_params(&mut keys, place as u64, &function.params)?;
    }
    Ok(keys)
}

// Whether a slot is one of a function's own.
fn owns(function: &FlowFunction, slot: u64) -> bool
    ensures { result ≡ loose.owns (plain_flow_function function.now) slot }
{
    function.first_slot.0 <= slot && slot - function.first_slot.0 < function.slots
}

// Whether a slot is one of those of the function of a number.
fn is_owned(functions: &[FlowFunction], number: u64, slot: u64) -> bool
    ensures { result ≡ loose.is_owned (slice_get (map plain_flow_function functions.now) number) slot }
{
    match functions.get(number as usize) {
        Some(function) => owns(function, slot),
        None => false,
    }
}

// Whether a slot is no parameter of the function of a number.
fn is_no_param(keys: &IndexSet<(u64, u64)>, number: u64, slot: u64) -> bool
    ensures { result ≡ spec.is_no_param keys.now.keys number slot }
{
    !keys.contains(&(number, slot))
}

/// Whether a slot is null where the function of a number is entered: it is one of its own, and no
/// parameter. In constant time.
pub fn is_null(
    functions: &[FlowFunction],
    keys: &IndexSet<(u64, u64)>,
    number: u64,
    slot: u64,
) -> bool
    ensures { result ≡ spec.is_null (map plain_flow_function functions.now) keys.now.keys number
        slot }
{
    let is_owned = is_owned(functions, number, slot);
    let is_no_param = is_no_param(keys, number, slot);
    is_owned && is_no_param
}
