//! Rows of values.

ghost use Rattle.std.specs.Prelude.{◌≡◌, ◌∷◌, [], ◌++◌, List, IfOk, OnOk};
ghost use Rattle.std.proofs.Common.{rules, ap};
ghost use Rattle.std.specs.Hash as fed;
ghost use Rattle.std.specs.Cmp.Rules.{comparing};
ghost use Rattle.std.specs.Cmp.Lexicographic.{pointwise};
ghost use Rattle.partial_derivatives.specs.Exactness.{exact_row};

use std::alloc::Global;
use std::hash::{Hash, Hasher};
use std::marker::Model;
use text_base::{Exact, NoMemory};

/// Values in an order. Contracts see it as the list of them; equality and hash are those of that
/// list.
#[derive(Debug, Drop)]
pub struct Row<T> {
    values: Vec<T>,
}

impl<T> Model for Row<T> {
    ghost use Rattle.std.specs.Prelude.{List};

    ghost Value = { List T };

    ghost view = { λ r. r.values.items };
}

impl<T: PartialEq> PartialEq for Row<T> {
    ghost eq = { pointwise T.eq };

    ghost laws = { Prim.search (comparing, rules) };

    fn eq(&self, other: &Row<T>) -> bool {
        self.values.as_slice() == other.values.as_slice()
    }
}

impl<T: Eq> Eq for Row<T> {
    ghost laws = { Prim.search (comparing, rules) };
}

impl<T: Exact + Hash> Hash for Row<T> {
    ghost hash_input = { fed.slice T.hash_input };

    ghost respects_eq = { λ x y same. ap (fed.slice T.hash_input) (exact_row T.exact x y same) };

    fn hash<H: Hasher>(&self, state: &mut H) {
        self.values.hash(state);
    }
}

impl<T: Exact> Exact for Row<T> {
    ghost exact = { exact_row T.exact };
}

impl<T: Drop> Row<T> {
    /// No values. Takes no memory.
    pub fn new(alloc: Global) -> Row<T>
        ensures { result ≡ [] }
    {
        Row {
            values: Vec::new(alloc),
        }
    }

    /// The values.
    pub fn as_slice(&self) -> &[T]
        ensures { result.now ≡ self.now }
    {
        self.values.as_slice()
    }

    /// Puts a value at the end.
    pub fn push(&mut self, value: T) -> Result<(), NoMemory>
        ensures { OnOk result (self.new ≡ self.old ++ value ∷ []) }
    {
        self.values.push(value)?;
        Ok(())
    }
}

impl<T: Copy + Drop> Row<T> {
    /// These values.
    pub fn from_slice(alloc: Global, values: &[T]) -> Result<Row<T>, NoMemory>
        ensures { IfOk result (λ row. row ≡ values.now) }
    {
        let values = Vec::from_slice(alloc, values)?;
        Ok(Row { values })
    }

    /// Puts values at the end.
    pub fn extend(&mut self, more: &[T]) -> Result<(), NoMemory>
        ensures { OnOk result (self.new ≡ self.old ++ more.now) }
    {
        self.values.extend_from_slice(more)?;
        Ok(())
    }
}
