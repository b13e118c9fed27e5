//! The functions of a script, by their names.

ghost use Rattle.std.specs.Prelude.{◌≡◌, None, Some, MatchOption};
ghost use Rattle.php_syntax.specs.Trees.{plain_function, functions_of_list};
ghost use Rattle.script_meaning.specs.Programs.{function_named};

use php_syntax::tree::FunctionDef;

/// The functions of a script.
#[derive(Drop)]
pub struct Functions<'a> {
    pub all: &'a [FunctionDef],
}

impl<'a> Functions<'a> {
    /// The first function of a name, which is in lower case.
    #[tactic(auto, unfolding(script_meaning::specs::Programs::function_named))]
    pub fn named(&self, name: &[u8]) -> Option<&'a FunctionDef>
        ensures { MatchOption result
            (function_named (functions_of_list self.now.all.now) name.now ≡ None)
            (λ f. function_named (functions_of_list self.now.all.now) name.now
            ≡ Some (plain_function f.now)) }
    {
        let mut rest = self.all;
        while let Some((first, others)) = rest.split_first() {
            if first.name.as_slice() == name {
                return Some(first);
            }
            rest = others;
        }
        None
    }
}
