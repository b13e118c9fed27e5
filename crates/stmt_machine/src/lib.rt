//! How statements, functions and files are read: a machine with a stack of its own that reads each
//! expression as a whole by expr_machine (specs/Machine, specs/Made).
//! Promise: each move makes the weight less (`moves_get_lighter`, over `weight` of specs/Reading);
//! that it reads the files of script_grammar are the laws of stmt_laws.
//! Used by: stmt_laws, stmt_builder, stmt_parser, php_parser.
#![tactic(auto)]

pub mod frame;
pub mod laws;
