//! The chart of an image: which productions a machine has begun to read, in which states, and where
//! each symbol leads, over numbers of states alone (Earley's method). Promise: `turn` takes one
//! step of a chart that stays one, or says what the machine is to be asked, or that all is done
//! (`IsTurn` of specs/Kept, over `IsChart` of specs/Charts).
//! Used by: page_decision, chart_grammar, grammar_image, resolving, image_tests.
#![tactic(auto)]

mod chart;
mod keys;
pub mod rules;
mod steps;
mod turns;

pub use chart::{Chart, begin, let_go, pass, read, turn};
pub use keys::{Begun, Entry, Passage, Read, Reading};
pub use steps::Visit;
pub use turns::Turn;
