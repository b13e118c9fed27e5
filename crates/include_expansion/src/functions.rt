//! Functions.

ghost use Rattle.std.specs.Prelude.{◌≡◌, ◌++◌, IfOk, OnOk, map};
ghost use Rattle.php_syntax.specs.Trees.{plain_function, functions_of_list};
ghost use Rattle.program_rules.specs.Programs.{functions_in};
ghost use Rattle.program_files.specs.View.{files_of};
ghost use Rattle.program_rules.specs.Bodies.{with_body};
ghost use Rattle.include_expansion.specs.Within.{bodies_within};

use crate::statements::expand_statements;
use php_syntax::tree::FunctionDef;
use program_files::ScriptFiles;
use std::alloc::Global;
use text_base::NoMemory;
use tree_walks::copy_params;

/// The functions of all files, in the order of the files, each with the includes of its body
/// replaced so many times over.
#[tactic(auto, unfolding(program_rules::specs::Programs::functions_in))]
pub fn expand_functions(
    alloc: Global,
    files: &ScriptFiles,
    nesting: usize,
) -> Result<Vec<FunctionDef>, NoMemory>
    ensures { IfOk result (λ copies. functions_of_list copies.items
        ≡ map (with_body (bodies_within (files_of files.now) nesting))
        (functions_in (files_of files.now))) }
{
    let mut copies = Vec::new(alloc);
    for place in 0..files.len() {
        match files.tree(place) {
            Some(tree) => expand_all(
                alloc,
                files,
                nesting,
                tree.functions.as_slice(),
                &mut copies,
            )?,
            None => unreachable!(),
        }
    }
    Ok(copies)
}

// Functions, behind others.
fn expand_all(
    alloc: Global,
    files: &ScriptFiles,
    nesting: usize,
    functions: &[FunctionDef],
    copies: &mut Vec<FunctionDef>,
) -> Result<(), NoMemory>
    ensures { OnOk result (functions_of_list copies.new.items ≡ functions_of_list copies.old.items
        ++ map (with_body (bodies_within (files_of files.now) nesting))
        (functions_of_list functions.now)) }
{
    for function in functions {
        let copy = expand_function(alloc, files, nesting, function)?;
        copies.push(copy)?;
    }
    Ok(())
}

// A function.
fn expand_function(
    alloc: Global,
    files: &ScriptFiles,
    nesting: usize,
    function: &FunctionDef,
) -> Result<FunctionDef, NoMemory>
    ensures { IfOk result (λ copy. plain_function copy
        ≡ with_body (bodies_within (files_of files.now) nesting) (plain_function function.now)) }
{
    let name = function.name.copy(alloc)?;
    let params = copy_params(alloc, function.params.as_slice())?;
    let body = expand_statements(alloc, files, nesting, function.body.as_slice())?;
    Ok(FunctionDef { name, params, body })
}
