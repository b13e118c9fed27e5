//! One byte more in a page, in memory, as far as no form of a piece is asked: the character that
//! bytes are the UTF-8 of, what is kept of a state, and where a byte leads (`StateMove`). Promise:
//! each call is, through the views of open_pieces and specs/Views, the function of its name in
//! character_steps, page_model or page_steps.
//! Used by: page_stepping, page_reader, merged_reader, phpsa_texts.
#![tactic(auto)]

mod bytes;
mod keeping;
mod state_move;

pub use bytes::{decoded, is_begun};
pub use keeping::{at_state, is_inside, kept_place, lifted, page_hold, put_place};
pub use state_move::StateMove;
