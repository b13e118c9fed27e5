//! One character more where a piece of a page begins, behind `<` and `<!`, in a reference and in a
//! document type declaration, in memory. Promise: `first_move`, `opener_move` and `reference_move`
//! are the functions of these names in page_steps (specs/PageSteps there), through the views;
//! `doctype_move` is the line of its `open_move` on such declarations (specs/Views).
//! Used by: page_stepping.
#![tactic(auto)]

mod doctypes;
mod first;
mod openers;
mod references;

pub use doctypes::doctype_move;
pub use first::first_move;
pub use openers::opener_move;
pub use references::reference_move;
