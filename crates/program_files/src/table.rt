//! What is asked of files that were read.

ghost use Rattle.std.specs.Prelude.{◌≡◌, [], ◌∷◌, ◌++◌, false, length, option_map, is_some, slice_get, IfOk};
ghost use Rattle.php_syntax.specs.Trees.{plain_file};
ghost use Rattle.program_files.specs.Order.{is_read, place_of};
ghost use Rattle.program_files.specs.View.{files_of};

use crate::files::ScriptFiles;
use indexmap::IndexSet;
use php_syntax::tree::FileTree;
use std::alloc::Global;
use text_base::{Bytes, NoMemory};

impl ScriptFiles {
    /// No files. Takes no memory.
    pub fn new(alloc: Global) -> ScriptFiles
        ensures { files_of result ≡ [] }
    {
        ScriptFiles {
            names: IndexSet::new(alloc),
            trees: Vec::new(alloc),
        }
    }

    /// How many files there are.
    pub fn len(&self) -> usize
        ensures { result ≡ length (files_of self.now) }
    {
        self.trees.len()
    }

    /// The place of the file of this name, from 0.
    pub fn place_of(&self, name: &Bytes) -> Option<usize>
        ensures place { result ≡ place_of (files_of self.now) name.now }
        ensures found { is_some result ≡ is_read (files_of self.now) name.now }
    {
        self.names.get_index_of(name)
    }

    /// Whether there is a file of this name.
    pub fn has(&self, name: &Bytes) -> bool
        ensures { result ≡ is_read (files_of self.now) name.now }
    {
        self.place_of(name).is_some()
    }

    /// The name of the file at a place.
    pub fn name(&self, place: usize) -> Option<&Bytes>
        ensures { option_map (λ name. name.now) result
            ≡ option_map (λ file. file.name) (slice_get (files_of self.now) place) }
    {
        self.names.get_index(place)
    }

    /// The tree of the file at a place.
    pub fn tree(&self, place: usize) -> Option<&FileTree>
        ensures { option_map (λ tree. plain_file tree.now) result
            ≡ option_map (λ file. file.tree) (slice_get (files_of self.now) place) }
    {
        let trees = self.trees.as_slice();
        if place < trees.len() {
            Some(&trees[place])
        } else {
            None
        }
    }

    /// The files and one more, of a name that is new.
    pub fn with(self, name: Bytes, tree: FileTree) -> Result<ScriptFiles, NoMemory>
        requires { is_read (files_of self) name ≡ false }
        ensures { IfOk result
            (λ more. files_of more ≡ files_of self ++ record { name = name; tree = plain_file tree }
            ∷ []) }
    {
        let ScriptFiles {
            mut names,
            mut trees,
        } = self;
        trees.push(tree)?;
        names.insert(name)?;
        Ok(ScriptFiles { names, trees })
    }
}
