//! Laws: the machine of expr_machine reads exactly the expressions of script_grammar.
//! Promise: each that nothing goes on with is read by its own actions (`expressions_are_read`),
//! what is read is one (`what_is_read_is_an_expression`), and the actions make the value of its
//! tree, or nothing where it breaks a rule (`actions_make_trees`).
//! Used by: stmt_laws.
#![tactic(auto)]

mod completeness_laws;
mod soundness_laws;
mod tree_laws;

pub use completeness_laws::expressions_are_read;
pub use soundness_laws::what_is_read_is_an_expression;
pub use tree_laws::actions_make_trees;
