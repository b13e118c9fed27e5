//! Sets of a system that have the same rows get one number: the system with each operation on each
//! operand once, by which every set has the texts that it had.
//! Promise: `join_equal` gives such a system (`IsJoined` of specs/Joined).
//! Used by: loose_grammar.
#![tactic(auto)]

mod alike;
mod joining;
mod passing;
mod prints;
mod renaming;
mod rows;
mod same;
mod writing;

pub use writing::join_equal;
