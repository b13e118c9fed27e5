//! PHP's functions from bytes to bytes as definitions, with laws, and the search of a pattern.
//! Promise: pieces are the one way to cut a text at the leftmost occurrences of a separator
//! (`laws::pieces`, over `AreLeftmost` of specs/Leftmost); `find` gives exactly the first place of
//! a pattern (`first_place` of specs/Place).
//! Used by builtin_meaning, op_system, function_laws, least_sets and others.
#![tactic(auto)]

mod failure;
pub mod laws;
mod occurrence;
pub mod of_byte;

pub use failure::{failures, next_part, next_row};
pub use occurrence::find;
