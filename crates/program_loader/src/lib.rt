//! Programs from files: `load` reads a file and all that it includes, and puts them together.
//! Promise: it gives the program of the name, of what the source tells that it gave (`Loads` of
//! specs/Causes), and each refusal has its cause (`IsLoadCause`); one that a source holds in files
//! within their limit is refused for want of memory alone (`held_programs_are_loaded`).
//! Used by: phpsa_tasks, phpsa_main, lowering_tests, extraction_tests, run_bench, extraction_bench.
#![tactic(auto)]

pub mod laws;
mod loading;
mod making;
mod told_programs;

pub use loading::load;
pub use told_programs::{
    held_programs_are_loaded, loaded_programs_stay, loads_are_loaded, one_program_is_loaded,
};
