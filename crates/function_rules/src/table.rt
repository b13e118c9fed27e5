//! A table of functions by their names.

ghost use Rattle.std.specs.Prelude.{◌≡◌, ◌++◌, ◌∷◌, [], List, None, MatchOption, OnOk};
ghost use Rattle.php_syntax.specs.Trees.{PlainFunction};
ghost use Rattle.script_meaning.specs.Programs.{function_named};
ghost use Rattle.function_rules.specs.Arguments.{AreNumbersOf};
ghost use Rattle.function_rules.specs.Table.{IsTable, OfTable, Takes};

use crate::Numbers;
use indexmap::IndexMap;
use std::alloc::Global;
use text_base::{Bytes, NoMemory};

/// How many arguments each function takes, by its name in lower case.
#[derive(Debug, Drop)]
pub(crate) struct FunctionTable {
    pub rows: IndexMap<Bytes, Numbers>,
}

impl FunctionTable {
    /// No functions. Takes no memory.
    pub fn new(alloc: Global) -> FunctionTable
        ensures { IsTable result.rows [] }
    {
        FunctionTable {
            rows: IndexMap::new(alloc),
        }
    }

    /// How many arguments the function of this name takes, if there is one.
    pub fn numbers(&self, name: &Bytes) -> Option<Numbers>
        ensures { OfTable self.now.rows
            (λ functions. MatchOption result (function_named functions name.now ≡ None)
            (Takes functions name.now)) }
    {
        self.rows.get(name).copied()
    }

    /// One more function, of a name that is new.
    pub fn insert(&mut self, name: Bytes, numbers: Numbers) -> Result<(), NoMemory>
        ensures { OnOk result
            ((functions : List PlainFunction) (function : PlainFunction)
            → IsTable self.old.rows functions →
            function_named functions name ≡ None → function.name_of ≡ name
            → AreNumbersOf numbers function.params_of →
            IsTable self.new.rows (functions ++ function ∷ [])) }
    {
        self.rows.insert(name, numbers)?;
        Ok(())
    }
}
