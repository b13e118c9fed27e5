//! Writes the system of productions and operations of a table of sets, row by row, as the rows come
//! and under any names.
//! Promise: what each call writes is said by `Writes` and its like (specs/Steps), and that a system
//! which is so written stands for the table (`IsSystem` of specs/Systems) by the laws of
//! proofs/Begun, RowLaws and Finished; it has the sets of the table by those of proofs/Same.
//! Used by: extraction.
#![tactic(auto)]

mod drafts;
mod ends;
mod finishing;
mod lines;
mod rows;
mod waiting;

pub use drafts::Draft;
pub use lines::Lines;
pub use rows::RowForm;
pub use waiting::Waiting;
