//! The tree of a file.

ghost use Rattle.std.specs.Prelude.{◌≡◌, Some, None, MatchOption};
ghost use Rattle.php_syntax.specs.Trees.{plain_file};
ghost use Rattle.stmt_machine.specs.Made.{file_of, file_of_row};
ghost use Rattle.stmt_builder.specs.Views.{made_of, row_of, kept_functions};

use crate::body::Row;
use crate::functions::Functions;
use crate::maker::Maker;
use php_syntax::tree::FileTree;
use text_base::limits::HEIGHT_LIMIT;

// The tree of a file of these statements and functions, where it is at most 200 high.
fn tree_of(row: Option<Row>, functions: Option<Functions>) -> Option<FileTree>
    ensures { MatchOption result
        (file_of_row (row_of row) (kept_functions functions) ≡ None)
        (λ tree. file_of_row (row_of row) (kept_functions functions) ≡ Some (plain_file tree)) }
{
    match row {
        None => None,
        Some(row) => match functions {
            None => None,
            Some(functions) => {
                if row.height.max(functions.height) >= HEIGHT_LIMIT {
                    return None;
                }
                Some(FileTree {
                    body: row.stmts,
                    functions: functions.functions,
                })
            }
        },
    }
}

impl Maker {
    /// The tree of the file that was read, where it is at most 200 high.
    pub fn file(mut self) -> Option<FileTree>
        ensures { MatchOption result
            (file_of (made_of self) ≡ None)
            (λ tree. file_of (made_of self) ≡ Some (plain_file tree)) }
    {
        match self.bodies.pop() {
            None => None,
            Some(body) => tree_of(body.row, self.functions),
        }
    }
}
