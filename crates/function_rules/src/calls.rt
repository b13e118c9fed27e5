//! The rules on calls.

ghost use Rattle.std.specs.Prelude.{◌≡◌, OnOk, IfErr};
ghost use Rattle.tree_walks.specs.Seen.{plain_call, calls_seen};
ghost use Rattle.program_rules.specs.Rules.{is_known, serves_call, serves_builtin};
ghost use Rattle.builtin_meaning.specs.declared.builtin.Builtin.{Builtin};
ghost use Rattle.function_rules.specs.Causes.{NoneIs, is_unknown, is_misused, IsUnknownCause, IsArityCause};
ghost use Rattle.function_rules.specs.Table.{OfTable};

use crate::Numbers;
use crate::table::FunctionTable;
use builtin_meaning::Builtin;
use program_files::LoadRefusal;
use std::alloc::Global;
use tree_walks::Call;

// Whether a call is of a function that there is.
fn knows(table: &FunctionTable, call: &Call) -> bool
    ensures { OfTable table.now.rows
        (λ functions. result ≡ is_known functions (plain_call call.now)) }
{
    Builtin::of(call.name.as_slice()).is_some() || table.numbers(&call.name).is_some()
}

// Whether one of PHP's functions takes so many arguments.
fn builtin_takes(builtin: Builtin, count: usize) -> bool
    ensures { result ≡ serves_builtin count builtin }
{
    let (least, most) = builtin.arity();
    let numbers = Numbers {
        least: least as usize,
        most: most as usize,
    };
    numbers.have(count)
}

// Whether a call hands in as many arguments as its function takes, if there is one.
fn serves(table: &FunctionTable, call: &Call) -> bool
    ensures { OfTable table.now.rows
        (λ functions. result ≡ serves_call functions (plain_call call.now)) }
{
    match Builtin::of(call.name.as_slice()) {
        Some(builtin) => builtin_takes(builtin, call.arguments),
        None => match table.numbers(&call.name) {
            Some(numbers) => numbers.have(call.arguments),
            None => true,
        },
    }
}

/// Whether each call is of a function that there is.
pub(crate) fn check_known(
    alloc: Global,
    table: &FunctionTable,
    calls: &[Call],
) -> Result<(), LoadRefusal>
    ensures ok { OnOk result
        (OfTable table.now.rows (λ functions. NoneIs (is_unknown functions) (calls_seen calls.now))) }
    ensures err { IfErr result
        (λ refusal. OfTable table.now.rows
        (λ functions. IsUnknownCause functions (calls_seen calls.now) refusal)) }
{
    for call in calls {
        if !knows(table, call) {
            let name = call.name.copy(alloc)?;
            return Err(LoadRefusal::UnknownFunction { name });
        }
    }
    Ok(())
}

/// Whether each call hands in as many arguments as its function takes.
pub(crate) fn check_arguments(
    alloc: Global,
    table: &FunctionTable,
    calls: &[Call],
) -> Result<(), LoadRefusal>
    ensures ok { OnOk result
        (OfTable table.now.rows (λ functions. NoneIs (is_misused functions) (calls_seen calls.now))) }
    ensures err { IfErr result
        (λ refusal. OfTable table.now.rows
        (λ functions. IsArityCause functions (calls_seen calls.now) refusal)) }
{
    for call in calls {
        if !serves(table, call) {
            let name = call.name.copy(alloc)?;
            return Err(LoadRefusal::Arity { name });
        }
    }
    Ok(())
}
