//! The calls in the files of a program.

ghost use Rattle.std.specs.Prelude.{◌≡◌, IfOk};
ghost use Rattle.php_syntax.specs.Trees.{functions_of_list};
ghost use Rattle.tree_walks.specs.Seen.{calls_seen};
ghost use Rattle.program_files.specs.View.{files_of};
ghost use Rattle.include_expansion.specs.FileCalls.{calls_in_files};
ghost use Rattle.program_sizes.specs.FileRules.{all_calls};

use php_syntax::tree::FunctionDef;
use program_files::ScriptFiles;
use std::alloc::Global;
use text_base::NoMemory;
use tree_walks::{Call, find_calls};

/// The calls in all files, those of each file outside functions first, and behind them those in
/// stubs. Takes time and memory linear in the files and the stubs.
pub fn calls_of(
    alloc: Global,
    files: &ScriptFiles,
    stubs: &[FunctionDef],
) -> Result<Vec<Call>, NoMemory>
    ensures { IfOk result (λ calls. calls_seen calls.items
        ≡ all_calls (files_of files.now) (functions_of_list stubs.now)) }
{
    let mut calls = calls_in_files(alloc, files)?;
    find_calls(alloc, &[], stubs, &mut calls)?;
    Ok(calls)
}

// Those in the files.
fn calls_in_files(alloc: Global, files: &ScriptFiles) -> Result<Vec<Call>, NoMemory>
    ensures { IfOk result (λ calls. calls_seen calls.items ≡ calls_in_files (files_of files.now)) }
{
    let mut calls = Vec::new(alloc);
    for place in 0..files.len() {
        match files.tree(place) {
            Some(tree) => find_calls(
                alloc,
                tree.body.as_slice(),
                tree.functions.as_slice(),
                &mut calls,
            )?,
            None => unreachable!(),
        }
    }
    Ok(calls)
}
