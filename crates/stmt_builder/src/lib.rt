//! What a reader of statements makes: statements, functions and the tree of a file.
//! Promise: each method of `Maker` does what `apply_stmt` of stmt_machine says of its action, or
//! answers false where the action breaks a rule of the language (`Does` of specs/Answers, over
//! `made_of` of specs/Views).
//! Used by: stmt_parser.
#![tactic(auto)]

pub mod body;
mod compound;
mod files;
pub mod functions;
pub mod maker;
mod names;
mod nodes;
mod rows;
