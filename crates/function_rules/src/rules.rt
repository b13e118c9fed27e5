//! All rules on functions.

ghost use Rattle.std.specs.Prelude.{◌≡◌, [], OnOk, IfOk, IfErr};
ghost use Rattle.php_syntax.specs.Trees.{functions_of_list};
ghost use Rattle.program_rules.specs.Programs.{functions_in, taken};
ghost use Rattle.program_files.specs.View.{files_of};
ghost use Rattle.program_sizes.specs.FileRules.{KeepFunctionRules};
ghost use Rattle.function_rules.specs.Causes.{IsFunctionCause};
ghost use Rattle.function_rules.specs.Table.{HasPut};

use crate::calls::{check_arguments, check_known};
use crate::calls_of;
use crate::definitions::{put_all, table_of};
use crate::stubs::take_stubs;
use crate::table::FunctionTable;
use php_syntax::tree::FunctionDef;
use program_files::{LoadRefusal, ScriptFiles};
use std::alloc::Global;

/// Those of the functions of a file of stubs that a program with these files takes: the ones that
/// have the name of none of its functions, nor of one of PHP's; where the files keep the rules on
/// functions with these stubs behind their own functions (PHP manual, "User-defined functions",
/// "Function parameters and arguments"). Takes time linear in the files and the stubs.
///
/// # Errors
///
/// The first rule that is broken, with the name of a function: `DoubleFunction` where it is defined
/// twice or as one of PHP's; `UnknownFunction` where the first call that names no function names
/// it; `Arity` where the first call with too few or too many arguments is of it; and `Memory`.
pub fn check_functions(
    alloc: Global,
    files: &ScriptFiles,
    functions: Vec<FunctionDef>,
) -> Result<Vec<FunctionDef>, LoadRefusal>
    ensures taken { IfOk result (λ stubs. functions_of_list stubs.items
        ≡ taken (functions_in (files_of files.now)) (functions_of_list functions.items)) }
    ensures ok { IfOk result
        (λ stubs. KeepFunctionRules (files_of files.now) (functions_of_list stubs.items)) }
    ensures err { IfErr result (IsFunctionCause (files_of files.now)
        (taken (functions_in (files_of files.now)) (functions_of_list functions.items))) }
{
    let mut table = table_of(alloc, files)?;
    let stubs = take_stubs(alloc, &table, functions)?;
    check_rules(alloc, files, &mut table, stubs.as_slice())?;
    Ok(stubs)
}

// Whether files keep the rules with these stubs, by the table of their functions.
fn check_rules(
    alloc: Global,
    files: &ScriptFiles,
    table: &mut FunctionTable,
    stubs: &[FunctionDef],
) -> Result<(), LoadRefusal>
    requires { HasPut table.old.rows [] (functions_in (files_of files.now)) }
    ensures ok { OnOk result (KeepFunctionRules (files_of files.now) (functions_of_list stubs.now)) }
    ensures err { IfErr result (IsFunctionCause (files_of files.now) (functions_of_list stubs.now)) }
{
    put_all(alloc, table, stubs)?;
    let calls = calls_of(alloc, files, stubs)?;
    check_known(alloc, table, calls.as_slice())?;
    check_arguments(alloc, table, calls.as_slice())?;
    Ok(())
}
