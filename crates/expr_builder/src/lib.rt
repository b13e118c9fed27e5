//! The values that a reader of expressions makes, and what its actions do with them.
//! Promise: `Values::perform` makes exactly what `execute` of expr_machine says of the actions of a
//! move, and answers false exactly where that gives nothing (`Applied` of specs/Outcomes).
//! Used by: expr_parser, stmt_builder.
#![tactic(auto)]

pub mod action;
mod counted;
mod nodes;
mod rows;
mod single;
mod templates;
mod trees;
pub mod value;
pub mod values;
