//! PHP's functions that a script may call, computed: no result that is longer than a text may be is
//! built before it is refused.
//! Promise: `apply` gives `builtin_value` of builtin_meaning for the function and the arguments
//! (clause `ok`), or its fault, want of memory aside (`err`).
//! Used by: expr_evaluator.
#![tactic(auto)]

mod application;
mod cases;
mod copying;
mod encodings;
mod intval;
mod joining;
mod line_ends;
mod pieces;
mod values;

pub use application::apply;
pub use cases::{first_upper, lower, substr, trim, upper};
pub use copying::repeat;
pub use encodings::html;
pub use intval::text_integer;
pub use joining::implode;
pub use line_ends::breaks;
pub use pieces::{explode, replace};
