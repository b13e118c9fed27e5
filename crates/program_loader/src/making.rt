//! The program of files that were read.

ghost use Rattle.std.specs.Prelude.{◌≡◌, false, IfOk, IfErr, MatchOption};
ghost use Rattle.std.specs.List.{Contains};
ghost use Rattle.php_syntax.specs.Trees.{plain_file, functions_of_list};
ghost use Rattle.program_rules.specs.Programs.{ReadFile};
ghost use Rattle.program_rules.specs.View.{program_of};
ghost use Rattle.program_files.specs.Order.{is_read};
ghost use Rattle.program_files.specs.View.{files_of};
ghost use Rattle.include_expansion.specs.Within.{tree_named, program_within};
ghost use Rattle.program_sizes.specs.Loaded.{AreStubs, with_stubs};
ghost use Rattle.program_loader.specs.Making.{AreReady, AreChecked, Make, IsMakeCause};

use function_rules::check_functions;
use include_expansion::{expand_functions, expand_statements, order_files};
use php_syntax::tree::{FileTree, FunctionDef};
use program_files::{LoadRefusal, ScriptFiles};
use program_rules::Program;
use program_sizes::{check_sizes, made_programs_are_lawful};
use std::alloc::Global;
use text_base::{Bytes, NoMemory};

// The tree of the file of a name.
fn tree_of<'a>(files: &'a ScriptFiles, name: &Bytes) -> Option<&'a FileTree>
    ensures { MatchOption result (is_read (files_of files.now) name.now ≡ false)
        (λ tree. (plain_file tree.now ≡ tree_named (files_of files.now) name.now)
        × ((file : ReadFile) × Contains (files_of files.now) file
        × (file.tree ≡ plain_file tree.now))) }
{
    match files.place_of(name) {
        Some(place) => files.tree(place),
        None => None,
    }
}

// The program of a tree, with its includes replaced so many times over, and stubs behind its
// functions.
fn expand(
    alloc: Global,
    files: &ScriptFiles,
    nesting: usize,
    tree: &FileTree,
    mut stubs: Vec<FunctionDef>,
) -> Result<Program, NoMemory>
    requires { AreChecked (files_of files.now) (functions_of_list stubs.items) nesting
        (plain_file tree.now) }
    ensures { IfOk result
        (λ program. program_of program ≡ with_stubs (functions_of_list stubs.items)
        (program_within (files_of files.now) nesting (plain_file tree.now))) }
{
    made_programs_are_lawful();
    let main = expand_statements(alloc, files, nesting, tree.body.as_slice())?;
    let mut functions = expand_functions(alloc, files, nesting)?;
    functions.append(&mut stubs)?;
    Ok(Program { main, functions })
}

/// The program that files make of the one with this name, where a file of stubs has these
/// functions. The order of the tests is that of the refusals: cycles of includes, functions and
/// calls, sizes.
pub(crate) fn make_program(
    alloc: Global,
    files: &ScriptFiles,
    functions: Vec<FunctionDef>,
    name: &Bytes,
) -> Result<Program, LoadRefusal>
    requires ready { AreReady (files_of files.now) name.now }
    requires stubs { AreStubs (functions_of_list functions.items) }
    ensures ok { IfOk result
        (λ program. Make (files_of files.now) (functions_of_list functions.items) name.now
        (program_of program)) }
    ensures err { IfErr result
        (IsMakeCause (files_of files.now) (functions_of_list functions.items) name.now) }
{
    let order = order_files(alloc, files)?;
    let stubs = check_functions(alloc, files, functions)?;
    match tree_of(files, name) {
        Some(tree) => {
            check_sizes(alloc, files, order.as_slice(), tree, stubs.as_slice())?;
            let program = expand(alloc, files, order.len(), tree, stubs)?;
            Ok(program)
        }
        None => unreachable!(),
    }
}
