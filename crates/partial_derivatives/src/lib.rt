//! What a byte leaves of expressions, as rows of parts: partial derivatives (Antimirov, 1996). A
//! row names expressions of an arena by their numbers, so that it is made, compared and hashed by
//! what is short.
//! Promise: the rows that a byte leaves match exactly what may follow the byte
//! (`bytes_are_taken_in_turn`: `ByteInTurn` of specs/Laws).
//! Used by: way_reader, broken_readers.
#![tactic(auto)]

mod copying;
mod ending;
mod laws;
mod part;
mod row;
mod taking;

pub use copying::copy_parts;
pub use ending::{all_end, last_in_turn};
pub use laws::{bytes_are_taken_in_turn, classes_are_taken_in_turn, parts_end_in_turn};
pub use part::{Member, Part};
pub use row::Row;
pub use taking::Taking;
