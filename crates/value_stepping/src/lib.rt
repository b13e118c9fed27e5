//! One character more in the quotes of a value of an attribute, in memory. Promise: `value_start`,
//! `value_step` and `may_stand` are, through the views of open_pieces and `plain_next` of
//! specs/Views, the functions of the same names in page_steps (specs/ValueSteps there), by a
//! definition with its names indexed.
//! Used by: attribute_stepping, state_testing.
#![tactic(auto)]

mod start;
mod step;
mod words;

pub use start::value_start;
pub use step::{may_stand, value_step};
