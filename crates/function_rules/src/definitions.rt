//! The table of the functions of all files.

ghost use Rattle.std.specs.Prelude.{◌∷◌, [], IfOk, IfErr, OnOk};
ghost use Rattle.php_syntax.specs.Trees.{plain_function, functions_of_list};
ghost use Rattle.program_rules.specs.Programs.{functions_in};
ghost use Rattle.program_files.specs.View.{files_of};
ghost use Rattle.function_rules.specs.Causes.{IsDoubleCause};
ghost use Rattle.function_rules.specs.Table.{HasPut, Puts, PutsNone};

use crate::numbers_of;
use crate::table::FunctionTable;
use builtin_meaning::Builtin;
use php_syntax::tree::FunctionDef;
use program_files::{LoadRefusal, ScriptFiles};
use std::alloc::Global;

// Puts a function into the table, where no other and none of PHP's has its name.
fn put(alloc: Global, table: &mut FunctionTable, function: &FunctionDef) -> Result<(), LoadRefusal>
    ensures ok { OnOk result (Puts table.old.rows table.new.rows (plain_function function.now ∷ [])) }
    ensures err { IfErr result (PutsNone table.old.rows (plain_function function.now ∷ [])) }
{
    let name = function.name.copy(alloc)?;
    if Builtin::of(name.as_slice()).is_some() {
        return Err(LoadRefusal::DoubleFunction { name });
    }
    if table.numbers(&name).is_some() {
        return Err(LoadRefusal::DoubleFunction { name });
    }
    table.insert(name, numbers_of(function.params.as_slice()))?;
    Ok(())
}

/// Puts functions into the table.
pub(crate) fn put_all(
    alloc: Global,
    table: &mut FunctionTable,
    functions: &[FunctionDef],
) -> Result<(), LoadRefusal>
    ensures ok { OnOk result (Puts table.old.rows table.new.rows (functions_of_list functions.now)) }
    ensures err { IfErr result (PutsNone table.old.rows (functions_of_list functions.now)) }
{
    for function in functions {
        put(alloc, table, function)?;
    }
    Ok(())
}

/// The table of the functions of all files. Takes time and memory linear in the files.
pub(crate) fn table_of(alloc: Global, files: &ScriptFiles) -> Result<FunctionTable, LoadRefusal>
    ensures ok { IfOk result (λ table. HasPut table.rows [] (functions_in (files_of files.now))) }
    ensures err { IfErr result (IsDoubleCause (functions_in (files_of files.now))) }
{
    let mut table = FunctionTable::new(alloc);
    for place in 0..files.len() {
        match files.tree(place) {
            Some(tree) => put_all(alloc, &mut table, tree.functions.as_slice())?,
            None => unreachable!(),
        }
    }
    Ok(table)
}
