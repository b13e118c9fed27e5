//! Lists of names.

ghost use Rattle.std.specs.Prelude.{◌≡◌, ◌∷◌, [], ◌++◌, ℕ, List, IfOk, OnOk, nat_eq};
ghost use Rattle.std.proofs.Common.{rules, ap};
ghost use Rattle.std.specs.Hash as fed;
ghost use Rattle.std.specs.Cmp.Rules.{comparing};
ghost use Rattle.std.specs.Cmp.Lexicographic.{pointwise};
ghost use Rattle.open_pieces.specs.Lists.{exact_lists};

use crate::characters::Characters;
use std::alloc::Global;
use std::hash::{Hash, Hasher};
use std::marker::Model;
use text_base::{Exact, NoMemory};

/// Names in an order. Contracts see it as the list of them; equality and hash are those of that
/// list.
#[derive(Debug, Drop)]
pub struct NameList {
    names: Vec<Characters>,
}

impl Model for NameList {
    ghost use Rattle.std.specs.Prelude.{ℕ, List};

    ghost Value = { List (List ℕ) };

    ghost view = { λ n. n.names.items };
}

impl PartialEq for NameList {
    ghost eq = { pointwise (pointwise nat_eq) };

    ghost laws = { Prim.search (comparing, rules) };

    fn eq(&self, other: &NameList) -> bool {
        self.names.as_slice() == other.names.as_slice()
    }
}

impl Eq for NameList {
    ghost laws = { Prim.search (comparing, rules) };
}

impl Hash for NameList {
    ghost hash_input = { fed.slice (fed.slice fed.char) };

    ghost respects_eq = { λ x y same. ap (fed.slice (fed.slice fed.char)) (exact_lists x y same) };

    fn hash<H: Hasher>(&self, state: &mut H) {
        self.names.hash(state);
    }
}

impl Exact for NameList {
    ghost exact = { exact_lists };
}

impl NameList {
    /// No names. Takes no memory.
    pub fn new(alloc: Global) -> NameList
        ensures { result ≡ [] }
    {
        NameList {
            names: Vec::new(alloc),
        }
    }

    /// The names.
    pub fn as_slice(&self) -> &[Characters]
        ensures { result.now ≡ self.now }
    {
        self.names.as_slice()
    }

    /// Puts a name at the end.
    pub fn push(&mut self, name: Characters) -> Result<(), NoMemory>
        ensures { OnOk result (self.new ≡ self.old ++ name ∷ []) }
    {
        self.names.push(name)?;
        Ok(())
    }

    /// The same names once more.
    pub fn copy(&self, alloc: Global) -> Result<NameList, NoMemory>
        ensures { IfOk result (λ n. n ≡ self.now) }
    {
        let mut copy = NameList::new(alloc);
        for name in self.names.as_slice() {
            copy.push(name.copy(alloc)?)?;
        }
        Ok(copy)
    }
}
