//! Laws: the machine of stmt_machine reads exactly the files of script_grammar.
//! Promise: each file with each `else` at the nearest `if` is read, and no other (`files_are_read`,
//! `what_is_read_is_a_file`); the actions make its tree, at most 200 high, or nothing where it
//! breaks a rule (`actions_make_files`).
//! Used by: php_parser.
#![tactic(auto)]

mod completeness_laws;
mod soundness_laws;
mod tree_laws;

pub use completeness_laws::files_are_read;
pub use soundness_laws::what_is_read_is_a_file;
pub use tree_laws::actions_make_files;
