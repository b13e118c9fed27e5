//! Machines that read bytes and put out bytes and page tokens (finite-state transducers), and what
//! the image of a grammar under one is. Promise: `applies` is true exactly where a table may put
//! out the output over the input (`TableRelates` of specs/Tables); a `Machine` hands out, for each
//! byte of a range, exactly its steps (`exact`: `Offers` of specs/Offers).
//! Used by script_decision, page_decision, grammar_chart, chart_grammar and others.
#![tactic(auto)]

mod indexed;
mod indexed_machine;
pub mod laws;
mod layers;
mod machine;
mod moves;
mod offering;
mod out;
mod rows;
mod table;

pub use indexed::IndexedTable;
pub use layers::applies;
pub use machine::{Machine, Move};
pub use moves::{Action, TableEnd, TableMove};
pub use out::Out;
pub use table::Table;
