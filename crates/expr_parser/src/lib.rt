//! Reads expressions from tokens to trees, by expr_machine with the values of expr_builder.
//! Promise: what `parser::read_expr` leaves to read, and the values, are those of `reads_expr` of
//! expr_machine, and nothing where that gives nothing; each move of the code is one of the machine
//! (`Moves` of specs/Outcomes).
//! Used by: stmt_parser, php_parser.
#![tactic(auto)]

mod begin;
mod choices;
mod ends;
pub mod head;
mod items;
mod levels;
mod operands;
pub mod parser;
mod places;
mod quotes;
mod reader;
mod step;
