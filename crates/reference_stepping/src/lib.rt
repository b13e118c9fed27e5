//! One character more in a reference of a page, in memory. Promise: `reference_step` and
//! `reference_good` are, through the views of open_pieces and `plain_next` of specs/Views, the
//! functions of the same names in page_steps (specs/ReferenceSteps there), by a definition with its
//! names indexed.
//! Used by: value_stepping, opener_stepping.
#![tactic(auto)]

mod numbers;
mod references;

pub use references::{reference_good, reference_step};
