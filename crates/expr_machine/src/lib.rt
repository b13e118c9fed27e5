//! How expressions are read: a machine with a stack of its own over the terminals of a script,
//! whose actions make values in postfix order (specs/Machine, specs/Values).
//! Promise: each move makes the weight less (`moves_get_lighter`, over `weight` of specs/Reading);
//! that it reads the grammar are laws of expr_laws.
//! Used by expr_laws, expr_builder, expr_parser, stmt_machine and others.
#![tactic(auto)]

pub mod frame;
pub mod laws;
