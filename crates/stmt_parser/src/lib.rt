//! Reads statements, functions and files from tokens to trees, by the machine of stmt_machine with
//! expr_parser and stmt_builder.
//! Promise: `reader::read_file` answers what `makes_file` of stmt_machine says: the file's tree,
//! `Tall` over a height of 200, or `Stuck` where there is no file (`IsReading` of specs/Readings).
//! Used by: php_parser.
#![tactic(auto)]

mod arms;
mod begins;
mod bodies;
mod ends;
mod functions;
mod heads;
mod jumps;
mod literal;
mod parameters;
pub mod reader;
mod reads;
mod rows;
mod step;
