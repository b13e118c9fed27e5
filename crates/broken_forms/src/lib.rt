//! The loose pieces of a page, which tell the broken ones (`Broken` of page_model), as expressions
//! over bytes. Promise: the texts of the forms at a place are exactly the loose pieces there, with
//! the place behind them (`loose_pieces_are_spelled`: `LoosePiecesAreSpelled` of specs/Laws); none
//! goes on where another ends; a page that is no coarse pieces in turn is broken.
//! Used by: broken_readers, broken_search.
#![tactic(auto)]

mod laws;

pub use laws::{
    broken_have_bad, coarse_pages_are_broken, ends_are_spelled, loose_pieces_are_spelled,
    loose_pieces_end_once, loose_references_are_spelled, loose_tags_are_spelled,
};
