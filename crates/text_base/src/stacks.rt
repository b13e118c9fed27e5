//! A stack that contracts see as the list of its values, the last one first.

ghost use Rattle.std.specs.Prelude.{◌≡◌, ◌∷◌, [], List, OnOk, OnErr, MatchOption};

use crate::NoMemory;
use std::alloc::Global;
use std::marker::Model;

/// A stack. Contracts see the list of its values, the last one first.
#[derive(Debug, Drop)]
pub struct Stack<T> {
    values: Vec<T>,
}

impl<T> Model for Stack<T> {
    ghost use Rattle.std.specs.Prelude.{List, reverse};

    ghost Value = { List T };

    ghost view = { λ s. reverse s.values.items };
}

impl<T> Stack<T> {
    /// The empty stack. Takes no memory.
    pub fn new(alloc: Global) -> Stack<T>
        ensures { result ≡ [] }
    {
        Stack {
            values: Vec::new(alloc),
        }
    }

    /// Puts a value on the stack.
    pub fn push(&mut self, value: T) -> Result<(), NoMemory>
    where
        T: Drop,
        ensures ok { OnOk result (self.new ≡ value ∷ self.old) }
        ensures err { OnErr result (self.new ≡ self.old) }
    {
        self.values.push(value)?;
        Ok(())
    }

    /// Takes the last value off the stack.
    pub fn pop(&mut self) -> Option<T>
        ensures { MatchOption result ((self.old ≡ []) × (self.new ≡ []))
            (λ value. self.old ≡ value ∷ self.new) }
    {
        self.values.pop()
    }

    /// The last value, which stays on the stack.
    pub fn last(&self) -> Option<&T>
        ensures { MatchOption result (self.now ≡ [])
            (λ value. (rest : List T) × (self.now ≡ value.now ∷ rest)) }
    {
        self.values.last()
    }
}
