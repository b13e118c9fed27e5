//! How large the program is that files stand for, before anything is copied; what files make.
//! Promise: `check_sizes` is Ok only within the limits, else `TooMany` with the first that is
//! passed (`PassesLimit` of specs/Limits); files that keep order, rules and limits make the program
//! of the name (`made_programs_are_programs`, over `MakeProgram` of specs/Loaded).
//! Used by: function_rules, program_loader.
#![tactic(auto)]

mod expressions;
mod loading_laws;
mod program;
mod size;
mod statements;
mod table;

pub use loading_laws::{
    each_has_one_tree, made_programs_are_lawful, made_programs_are_programs,
    ordered_files_stand_for_a_program, read_files_are_whole,
};
pub use program::check_sizes;
