//! What the names in one function stand for.

ghost use Rattle.std.specs.Prelude.{◌≡◌, ◌≤◌, ◌<◌, length, None, Some, MatchOption};
ghost use Rattle.php_syntax.specs.Trees.{plain_function};
ghost use Rattle.flow_code.specs.Expressions.{variable, function_in};
ghost use Rattle.flow_lowering.specs.Emits.{START_LIMIT};

use crate::functions::named;
use indexmap::IndexSet;
use numbered_sets::{count, number_of};
use php_syntax::tree::FunctionDef;
use text_base::{Bytes, Slot};

/// The variables of a function, whose slots are numbered from the function's first one, and the
/// functions of the program. Contracts see what `scope_in` of specs/View.antt says.
#[derive(Drop)]
pub struct FunctionScope<'a> {
    /// The slot of the first variable.
    pub base: u64,
    /// The variables.
    pub names: &'a IndexSet<Bytes>,
    /// The functions of the program.
    pub functions: &'a [FunctionDef],
    pub ghost base_within: { base ≤ START_LIMIT },
    pub ghost few: { length functions.now < 9223372036854775808 },
}

impl<'a> FunctionScope<'a> {
    ghost use Rattle.flow_lowering.specs.ScopeView.{scope_in};

    /// The slot of a variable.
    #[tactic(auto, using(crate::proofs::Places::place_found, crate::proofs::Places::place_absent), unfolding(flow_code::specs::Expressions::variable))]
    pub fn variable(&self, name: &Bytes) -> Slot
        ensures { result.0 ≡ variable (scope_in self.now) name.now }
    {
        let all = count(self.names);
        let place = match number_of(self.names, name) {
            Some(place) => place,
            None => all,
        };
        Slot(self.base + place as u64)
    }

    /// The first function of the program of a name, with its number.
    pub fn function(&self, name: &Bytes) -> Option<(u64, &'a FunctionDef)>
        ensures { MatchOption result (function_in 1 (scope_in self.now).functions name.now ≡ None)
            (λ found. function_in 1 (scope_in self.now).functions name.now
            ≡ Some (found.0, plain_function found.1.now)) }
    {
        named(self.functions, name)
    }
}
