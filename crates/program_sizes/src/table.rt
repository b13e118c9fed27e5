//! The sizes of what files stand for.

ghost use Rattle.std.specs.Prelude.{◌≡◌, length, IfOk};
ghost use Rattle.program_files.specs.View.{files_of};
ghost use Rattle.include_expansion.specs.FileOrder.{IsFileOrder};
ghost use Rattle.program_sizes.specs.Sizes as sizes;
ghost use Rattle.program_sizes.specs.Bodies.{IsBodyTable};

use crate::size::Size;
use crate::statements::size_of_stmts;
use program_files::ScriptFiles;
use std::alloc::Global;
use text_base::NoMemory;

/// For each file, by its place, the size of what its statements stand for. Each file is measured
/// where it stands in the order.
pub(crate) fn table_of(
    alloc: Global,
    files: &ScriptFiles,
    order: &[usize],
) -> Result<Vec<Size>, NoMemory>
    requires { IsFileOrder (files_of files.now) order.now }
    ensures { IfOk result (λ table. IsBodyTable (files_of files.now) order.now table.items) }
{
    let mut table = empty_table(alloc, files)?;
    for place in order {
        match files.tree(*place) {
            Some(tree) => {
                let size = size_of_stmts(files, table.as_slice(), tree.body.as_slice());
                table[*place] = size;
            }
            None => unreachable!(),
        }
    }
    Ok(table)
}

// As many sizes as there are files.
fn empty_table(alloc: Global, files: &ScriptFiles) -> Result<Vec<Size>, NoMemory>
    ensures { IfOk result (λ table. length table.items ≡ length (files_of files.now)) }
{
    let mut table = Vec::new(alloc);
    for _count in 0..files.len() {
        table.push(Size::none())?;
    }
    Ok(table)
}
