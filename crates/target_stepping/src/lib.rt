//! One character more in the target of an instruction or of the XML declaration of a page, in
//! memory. Promise: `target_move` is, through the views of open_pieces and remark_stepping, the
//! function of that name in page_steps (specs/PageSteps there), where the target may still become
//! `xml`, and `other_target_move` that of specs/Views, where it cannot.
//! Used by: page_stepping.
#![tactic(auto)]

mod targets;

pub use targets::{other_target_move, target_move};
