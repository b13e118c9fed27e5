//! The runs of a program that end are those of its points that end: laws alone.
//! States `ended_runs_are_runs_of_points`, `runs_of_points_are_ended_runs` (over `FlatRun` of
//! flow_code and `meaning` of script_meaning) and `points_are_of_their_form`, and the same of
//! lawful programs, with how many points these have at most (`lawful_points_are_few`).
//! Used by: script_decision, loose_soundness, program_lowering, loose_grammar.
#![tactic(auto)]

mod laws;
mod program_laws;

pub use laws::{
    ended_runs_are_runs_of_points, points_are_of_their_form, runs_of_points_are_ended_runs,
};
pub use program_laws::{
    lawful_points_are_few, lawful_points_are_of_their_form, lawful_runs_are_runs_of_points,
    runs_of_points_are_lawful_runs,
};
