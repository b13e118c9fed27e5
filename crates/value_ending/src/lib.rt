//! Whether the value of an attribute of a page may end where it stands, in memory. Promise:
//! `value_good` is, through the views of open_pieces, the function of that name in page_steps
//! (specs/ValueSteps there), by a definition with its names indexed. It takes memory for a fixed
//! value alone.
//! Used by: attribute_stepping, state_testing.
#![tactic(auto)]

mod ends;

pub use ends::value_good;
