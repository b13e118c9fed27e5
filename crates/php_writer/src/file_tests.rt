//! Which trees some file spells.

ghost use Rattle.std.specs.Prelude.{◌≡◌, ◌≤◌, ◌↔◌, ◌&&◌, IsTrue, ◌-◌};
ghost use Rattle.php_syntax.specs.Trees.{plain_param, params_of_list, plain_function, functions_of_list, plain_file};
ghost use Rattle.script_grammar.specs.Rules as rules;
ghost use Rattle.php_syntax.specs.Height.{file_height};
ghost use Rattle.php_writer.specs.Spelled.{IsSpelled};
ghost use Rattle.php_writer.specs.Tested as spec;

use crate::expression_tests::is_maybe_good;
use crate::names::{is_call_name, is_target};
use crate::shapes::is_default;
use crate::statement_tests::are_good_stmts;
use php_syntax::tree::{FileTree, FunctionDef, Param};
use text_base::limits::HEIGHT_LIMIT;

// Whether none of the parameters has the name.
fn is_new_name(name: &[u8], params: &[Param]) -> bool
    ensures { result ≡ rules.is_new_name name.now (params_of_list params.now) }
{
    for param in params {
        if name == param.name.as_slice() {
            return false;
        }
    }
    true
}

// Whether a parameter is good, before those behind it.
#[tactic(auto, unfolding(crate::specs::Tested::deep))]
fn is_good_param(param: &Param, behind: &[Param], room: usize) -> bool
    ensures { result ≡ spec.param_good (plain_param param.now) (params_of_list behind.now) room }
{
    let name = param.name.as_slice();
    0 < room
        && ((is_target(name) && is_new_name(name, behind))
            && (is_default(&param.default) && is_maybe_good(&param.default, room - 1)))
}

// Whether parameters are good.
#[tactic(auto, unfolding(crate::specs::Tested::params_good))]
fn are_good_params(params: &[Param], room: usize) -> bool
    ensures { result ≡ spec.params_good (params_of_list params.now) room }
{
    let mut rest = params;
    while let Some((param, behind)) = rest.split_first() {
        if !is_good_param(param, behind, room) {
            return false;
        }
        rest = behind;
    }
    true
}

// Whether a function is good.
#[tactic(auto, unfolding(crate::specs::Tested::deep))]
fn is_good_function(function: &FunctionDef, room: usize) -> bool
    ensures { result ≡ spec.function_good (plain_function function.now) room }
{
    0 < room
        && ((is_call_name(function.name.as_slice())
            && are_good_params(function.params.as_slice(), room - 1))
            && are_good_stmts(function.body.as_slice(), false, true, room - 1))
}

// Whether functions are good.
#[tactic(auto, unfolding(crate::specs::Tested::functions_good))]
fn are_good_functions(functions: &[FunctionDef], room: usize) -> bool
    ensures { result ≡ spec.functions_good (functions_of_list functions.now) room }
{
    for function in functions {
        if !is_good_function(function, room) {
            return false;
        }
    }
    true
}

// Whether the tree of a file is good.
#[tactic(auto, unfolding(crate::specs::Tested::file_good, crate::specs::Tested::deep))]
fn is_good_file(tree: &FileTree, room: usize) -> bool
    ensures { result ≡ spec.file_good (plain_file tree.now) room }
{
    0 < room
        && (are_good_stmts(tree.body.as_slice(), false, false, room - 1)
            && are_good_functions(tree.functions.as_slice(), room - 1))
}

/// Whether some file spells the tree, and its height is at most 200. Takes no memory, and goes no
/// deeper into a tree that is higher.
pub fn well_formed(tree: &FileTree) -> bool
    ensures { IsTrue result ↔ (IsSpelled (plain_file tree.now) × (file_height (plain_file tree.now)
        ≤ HEIGHT_LIMIT)) }
{
    is_good_file(tree, HEIGHT_LIMIT as usize)
}
