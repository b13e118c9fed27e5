//! The size of a program, against the limits.

ghost use Rattle.std.specs.Prelude.{◌≡◌, length, OnOk, IfErr};
ghost use Rattle.std.specs.List.{Contains};
ghost use Rattle.php_syntax.specs.Trees.{plain_file, stmts_of, functions_of_list};
ghost use Rattle.program_rules.specs.Limits.{IsWithin};
ghost use Rattle.program_rules.specs.Programs.{ReadFile, functions_in};
ghost use Rattle.program_files.specs.View.{files_of};
ghost use Rattle.include_expansion.specs.Within.{program_within};
ghost use Rattle.include_expansion.specs.FileOrder.{AreWhole, IsFileOrder};
ghost use Rattle.program_sizes.specs.FileRules.{all_functions};
ghost use Rattle.program_sizes.specs.Limits.{program_places, IsSizeCause};
ghost use Rattle.program_sizes.specs.Loaded.{AreStubs, with_stubs};
ghost use Rattle.program_sizes.specs.Sizes as sizes;

use crate::size::Size;
use crate::statements::{size_of_functions, size_of_stmts};
use crate::table::table_of;
use php_syntax::tree::{FileTree, FunctionDef};
use program_files::{LoadRefusal, ScriptFiles};
use program_rules::limits::{NODE_LIMIT, PLACE_LIMIT, PROGRAM_HEIGHT_LIMIT};
use std::alloc::Global;

/// Whether the program that files stand for, with stubs behind its functions, is within the limits:
/// at most 256 places of includes, 200,000 nodes, and a height of 1,000, with each include
/// replaced. `order` has the places of all files, each behind those that it includes, and `main` is
/// the tree of the program. Takes time linear in the files and the stubs.
///
/// # Errors
///
/// `TooMany` with the first limit that is passed, and one more; and `Memory`.
pub fn check_sizes(
    alloc: Global,
    files: &ScriptFiles,
    order: &[usize],
    main: &FileTree,
    stubs: &[FunctionDef],
) -> Result<(), LoadRefusal>
    requires whole { AreWhole (files_of files.now) }
    requires order { IsFileOrder (files_of files.now) order.now }
    requires main { (file : ReadFile) × Contains (files_of files.now) file
        × (file.tree ≡ plain_file main.now) }
    requires stubs { AreStubs (functions_of_list stubs.now) }
    ensures ok { OnOk result
        (IsWithin (program_places (files_of files.now) (length order.now) (plain_file main.now))
        (with_stubs (functions_of_list stubs.now)
        (program_within (files_of files.now) (length order.now) (plain_file main.now)))) }
    ensures err { IfErr result
        (IsSizeCause (program_places (files_of files.now) (length order.now) (plain_file main.now))
        (with_stubs (functions_of_list stubs.now)
        (program_within (files_of files.now) (length order.now) (plain_file main.now)))) }
{
    let table = table_of(alloc, files, order)?;
    let size = size_of_program(files, table.as_slice(), main, stubs);
    if size.places > PLACE_LIMIT {
        return Err(LoadRefusal::TooMany {
            count: PLACE_LIMIT + 1,
        });
    }
    if size.nodes > NODE_LIMIT {
        return Err(LoadRefusal::TooMany {
            count: NODE_LIMIT + 1,
        });
    }
    if size.height > PROGRAM_HEIGHT_LIMIT {
        return Err(LoadRefusal::TooMany {
            count: PROGRAM_HEIGHT_LIMIT + 1,
        });
    }
    Ok(())
}

// The size of the program, by a table of the sizes of what files stand for.
fn size_of_program(
    files: &ScriptFiles,
    table: &[Size],
    main: &FileTree,
    stubs: &[FunctionDef],
) -> Size
    ensures { result ≡ sizes.capped (sizes.above (sizes.beside
        (sizes.of_stmts (sizes.size_at (files_of files.now) table.now)
        (stmts_of main.now.body.items))
        (sizes.of_functions (sizes.size_at (files_of files.now) table.now)
        (all_functions (files_of files.now) (functions_of_list stubs.now))))) }
{
    let body = size_of_stmts(files, table, main.body.as_slice());
    let own = size_of_all(files, table);
    let functions = own.beside(size_of_functions(files, table, stubs));
    body.beside(functions).above()
}

// The functions of all files.
fn size_of_all(files: &ScriptFiles, table: &[Size]) -> Size
    ensures { result ≡ sizes.capped
        (sizes.of_functions (sizes.size_at (files_of files.now) table.now)
        (functions_in (files_of files.now))) }
{
    let mut size = Size::none();
    for place in 0..files.len() {
        match files.tree(place) {
            Some(tree) => {
                size = size.beside(size_of_functions(files, table, tree.functions.as_slice()));
            }
            None => unreachable!(),
        }
    }
    size
}
