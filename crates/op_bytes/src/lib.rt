//! The byte sets of a system of productions and operations, and which of its operations are in a
//! cycle: their operands depend on what they make.
//! Promise: `byte_sets` gives each nonterminal its least set of bytes (`AreByteSets`, specs/Bytes);
//! `circular` says of each rule whether it is in a cycle (`AreCircular` of specs/Cycles).
//! Used by: extraction, resolving, loose_grammar, image_tests.
#![tactic(auto)]

mod beginning;
mod cycles;
mod fitting;
pub mod laws;
mod literals;
mod passing;
mod sets;
mod steps;
mod turning;
mod uses;

pub use cycles::{circular, is_circular, numbers};
pub use fitting::fits;
pub use sets::byte_sets;
