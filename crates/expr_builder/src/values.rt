//! The values that a reader has made.

ghost use Rattle.std.specs.Prelude.{◌≡◌, ◌∷◌, [], List, Some, None, IfOk, MatchOption, OnOk};
ghost use Rattle.expr_machine.specs.Values.{take_values};
ghost use Rattle.expr_builder.specs.Views.{plain_values, IsShort};

use crate::value::Value;
use std::alloc::Global;
use std::marker::Model;
use text_base::{NoMemory, Stack};

/// The values that a reader has made. Contracts see them as a list, the last one first. Beside them
/// stands how many tokens were left where the reading came to, of which no clause speaks: it only
/// says where a script breaks off.
#[derive(Debug, Drop)]
pub struct Values {
    stack: Stack<Value>,
    left: usize,
}

impl Model for Values {
    ghost use Rattle.std.specs.Prelude.{List};
    ghost use Rattle.expr_builder.specs.declared.value.Value.{Value as OneValue};
    ghost use Rattle.std.specs.Coded.{codes};
    ghost use Rattle.php_syntax.specs.contracts.tree.Expr as expr;

    ghost Value = { List OneValue };

    ghost coded = { Prim.hlevel (codes, expr.the_row.coded) };

    ghost view = { λ s. s.stack };
}

impl Values {
    /// No values. Takes no memory.
    pub fn new(alloc: Global) -> Values
        ensures { result ≡ [] }
    {
        Values {
            stack: Stack::new(alloc),
            left: usize::MAX,
        }
    }

    /// One more value.
    pub fn push(&mut self, value: Value) -> Result<(), NoMemory>
        ensures { OnOk result (self.new ≡ value ∷ self.old) }
    {
        self.stack.push(value)
    }

    /// Takes the last value.
    pub fn pop(&mut self) -> Option<Value>
        ensures { MatchOption result ((self.old ≡ []) × (self.new ≡ []))
            (λ value. self.old ≡ value ∷ self.new) }
    {
        self.stack.pop()
    }

    /// Notes how many tokens are left where the reading came to.
    pub fn reach(&mut self, left: usize)
        ensures { self.new ≡ self.old }
    {
        self.left = left;
    }

    /// How many tokens were left where the reading came to last; the largest number where it came
    /// nowhere yet.
    pub fn left(&self) -> usize {
        self.left
    }

    /// Takes the last two values, the last one second.
    pub(crate) fn pop_two(&mut self) -> Option<(Value, Value)>
        ensures { MatchOption result (IsShort self.old)
            (λ two. self.old ≡ two.1 ∷ two.0 ∷ self.new) }
    {
        match self.pop() {
            None => None,
            Some(last) => match self.pop() {
                None => None,
                Some(first) => Some((first, last)),
            },
        }
    }

    /// Takes so many values off; popping the answer gives them in the order in which they were
    /// made.
    pub fn take_row(&mut self, alloc: Global, count: usize) -> Result<Option<Values>, NoMemory>
        ensures { IfOk result (λ found. MatchOption found
            (take_values count [] (plain_values self.old) ≡ None)
            (λ row. take_values count [] (plain_values self.old)
            ≡ Some (plain_values row, plain_values self.new))) }
    {
        let mut row = Values::new(alloc);
        let mut left = count;
        'taking: while left > 0 {
            match self.pop() {
                None => return Ok(None),
                Some(value) => {
                    row.push(value)?;
                    left -= 1;
                }
            }
        }
        Ok(Some(row))
    }
}
