//! One character more among the attributes of a page, in a tag or in the XML declaration, in
//! memory. Promise: `attribute_move` is, through `plain_move` and `plain_allowing` of specs/Views,
//! the function of that name in page_steps (specs/AttributeSteps there), by what may stand
//! (`Allowing`).
//! Used by: tag_stepping, state_testing.
#![tactic(auto)]

mod allowances;
mod allowed;
mod declarations;
mod elements;
mod moves;
mod names;
mod outcome;

pub use allowed::Allowing;
pub use moves::attribute_move;
pub use names::is_name_among;
pub use outcome::AttributeMove;
