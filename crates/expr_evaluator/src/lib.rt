//! Evaluates expressions of a script by a stack of its own, up to the next call of a function of
//! the script, which the caller runs and whose value it hands back.
//! Promise: where `evaluate` and `resume` stop, what is to come is what `value` of script_meaning
//! says, for whatever the functions of the script do (`Pauses` of specs/Moves).
//! Used by: script_runs.
#![tactic(auto)]

mod begin;
mod evaluate;
pub mod evaluator;
pub mod frame;
mod functions;
mod give;
mod items;
mod operations;
mod rows;
mod targets;
pub mod variables;

pub use evaluator::Evaluator;
pub use frame::Pause;
pub use functions::Functions;
pub use variables::Variables;
