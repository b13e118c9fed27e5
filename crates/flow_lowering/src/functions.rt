//! The functions of a program, with their numbers.

ghost use Rattle.std.specs.Prelude.{◌≡◌, ◌<◌, length, None, Some, MatchOption};
ghost use Rattle.php_syntax.specs.Trees.{plain_function, functions_of_list};
ghost use Rattle.flow_code.specs.Expressions.{function_in};

use php_syntax::tree::FunctionDef;
use text_base::Bytes;

/// The first function of a name, with its number. They are numbered from 1, since the statements
/// outside functions are function 0 of the points.
#[tactic(auto, unfolding(flow_code::specs::Expressions::function_in))]
pub(crate) fn named<'a>(
    functions: &'a [FunctionDef],
    name: &Bytes,
) -> Option<(u64, &'a FunctionDef)>
    requires { length functions.now < 9223372036854775808 }
    ensures { MatchOption result (function_in 1 (functions_of_list functions.now) name.now ≡ None)
        (λ found. function_in 1 (functions_of_list functions.now) name.now
        ≡ Some (found.0, plain_function found.1.now)) }
{
    let mut number = 1;
    let mut rest = functions;
    while let Some((first, others)) = rest.split_first() {
        if first.name.as_slice() == name.as_slice() {
            return Some((number, first));
        }
        number += 1;
        rest = others;
    }
    None
}
