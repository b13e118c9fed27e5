//! Names that differ, found by their characters.

ghost use Rattle.std.specs.Prelude.{◌≡◌, ◌++◌, ◌∷◌, [], false, OnOk, IfOk, bytes_eq, position};
ghost use Rattle.std.specs.List.{list_any};

use indexmap::IndexSet;
use std::alloc::Global;
use std::marker::Model;
use text_base::{Bytes, NoMemory};

/// Names in their order, none of which stands twice. Contracts see the list of them.
#[derive(Debug, Drop)]
pub struct NameIndex {
    names: IndexSet<Vec<char>>,
}

impl Model for NameIndex {
    ghost use Rattle.std.specs.Prelude.{ℕ, List, map};
    ghost use Rattle.dtd_index.specs.Keys.{characters_of};

    ghost Value = { List (List ℕ) };

    ghost view = { λ n. map characters_of n.names.keys };
}

// The characters of an ASCII name.
fn characters(alloc: Global, name: &Bytes) -> Result<Vec<char>, NoMemory>
    ensures { IfOk result (λ cs. cs.items ≡ name.now) }
{
    let mut characters = Vec::new(alloc);
    for byte in name.as_slice() {
        characters.push(char::from(*byte))?;
    }
    Ok(characters)
}

impl NameIndex {
    /// No names. Takes no memory.
    pub fn new(alloc: Global) -> NameIndex
        ensures { result ≡ [] }
    {
        NameIndex {
            names: IndexSet::new(alloc),
        }
    }

    /// Puts a name behind the others, among which it is not.
    pub fn put(&mut self, alloc: Global, name: &Bytes) -> Result<(), NoMemory>
        requires { list_any (bytes_eq name.now) self.old ≡ false }
        ensures { OnOk result (self.new ≡ self.old ++ name.now ∷ []) }
    {
        let _is_new = self.names.insert(characters(alloc, name)?)?;
        Ok(())
    }

    /// The place of the name, from 0 on; none where it is not among them.
    pub fn place(&self, name: &[char]) -> Option<usize>
        ensures { result ≡ position (bytes_eq name.now) self.now }
    {
        self.names.get_index_of(name)
    }

    /// Whether the name is among them.
    pub fn has(&self, name: &[char]) -> bool
        ensures { result ≡ list_any (bytes_eq name.now) self.now }
    {
        self.names.contains(name)
    }
}
