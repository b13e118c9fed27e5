//! Which functions of a file of stubs a program takes.

ghost use Rattle.std.specs.Prelude.{◌≡◌, ◌∷◌, ◌++◌, [], List, IfOk, OnOk, not};
ghost use Rattle.php_syntax.specs.Trees.{PlainFunction, plain_function, functions_of_list};
ghost use Rattle.program_rules.specs.Programs.{taken};
ghost use Rattle.program_rules.specs.Rules.{is_double};
ghost use Rattle.function_rules.specs.Table.{IsTable, OfTable};

use crate::table::FunctionTable;
use builtin_meaning::Builtin;
use php_syntax::tree::FunctionDef;
use std::alloc::Global;
use text_base::{Bytes, NoMemory};

// Whether a name is that of no function in the table, nor of one of PHP's.
fn is_new(table: &FunctionTable, name: &Bytes) -> bool
    ensures { OfTable table.now.rows (λ own. result ≡ not (is_double name.now own)) }
{
    Builtin::of(name.as_slice()).is_none() && table.numbers(name).is_none()
}

// Puts a function behind others, if its name is new.
fn take(
    table: &FunctionTable,
    function: FunctionDef,
    stubs: &mut Vec<FunctionDef>,
) -> Result<(), NoMemory>
    ensures { (own : List PlainFunction) → IsTable table.now.rows own → OnOk result
        (functions_of_list stubs.new.items ≡ functions_of_list stubs.old.items
        ++ taken own (plain_function function ∷ [])) }
{
    if is_new(table, &function.name) {
        stubs.push(function)?;
    }
    Ok(())
}

/// Those of some functions that have the name of none in the table, nor of one of PHP's, in their
/// order. Takes time linear in them.
pub(crate) fn take_stubs(
    alloc: Global,
    table: &FunctionTable,
    functions: Vec<FunctionDef>,
) -> Result<Vec<FunctionDef>, NoMemory>
    ensures { (own : List PlainFunction) → IsTable table.now.rows own → IfOk result
        (λ stubs. functions_of_list stubs.items ≡ taken own (functions_of_list functions.items)) }
{
    let mut stubs = Vec::new(alloc);
    for function in functions {
        take(table, function, &mut stubs)?;
    }
    Ok(stubs)
}
