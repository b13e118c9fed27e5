//! One character more in a document type declaration of a page, in memory. Promise: `doctype_turn`
//! is, through the views of open_pieces and `plain_turn` of specs/Views, the function of that name
//! in page_steps (specs/DoctypeSteps there), by what a definition asks of such a declaration
//! (`DoctypeRule`).
//! Used by: opener_stepping.
#![tactic(auto)]

mod literals;
mod turn;
mod turns;
mod words;

pub use turn::DoctypeTurn;
pub use turns::doctype_turn;
