//! Files that were read.

ghost use Rattle.std.specs.Prelude.{◌≡◌, length};

use indexmap::IndexSet;
use php_syntax::tree::FileTree;
use text_base::Bytes;

/// The trees of files, each by its name, in the order in which they were read.
#[derive(Debug, Drop)]
pub struct ScriptFiles {
    pub(crate) names: IndexSet<Bytes>,
    pub(crate) trees: Vec<FileTree>,
    ghost paired: { length names.keys ≡ length trees.items },
}
