//! Which program a file stands for: its includes, one table of functions, the rules on them and the
//! limits (`IsProgram` of specs/Programs), and the type `Program` of one.
//! Promise: the type keeps `IsLawful` of specs/Lawful; where each file has one tree at most,
//! statements stand for one list at most (`one_expansion`).
//! Used by tree_walks, program_files, include_expansion, program_sizes and others.
#![tactic(auto)]

pub mod laws;
pub mod limits;
mod program;

pub use program::Program;
