//! One character and one byte more in a page, in memory, over one call for each kind of open piece.
//! Promise: `page_step`, `byte_step` and `narrow_step` are, through the views of open_pieces and
//! byte_stepping, the steps of the readers of page_steps, of character_steps over it, and of
//! page_narrowing, at the table of a definition.
//! Used by: page_reader.
#![tactic(auto)]

mod byte_steps;
mod open_moves;
mod states;

pub use byte_steps::{byte_step, narrow_step};
pub use states::page_step;
