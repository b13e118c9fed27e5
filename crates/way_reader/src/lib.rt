//! A reader of pages, byte by byte, whose state is the ways in which a piece can go on.
//! Promise: where pieces begin in ways that have the texts of the forms of page_forms, as those of
//! `of_pages` have, it puts out
//! exactly the tokens of each page (`pages_are_read`: `PagesAreRead` of specs/Laws, over
//! `PageTokens` of page_model).
//! Used by: broken_readers, broken_search, script_decision, page_reader_tests, decision_tests.
#![tactic(auto)]

mod laws;
mod moving;
mod pages;
mod reader;
mod running;
mod starting;
mod way;

pub use laws::{pages_are_read, puts_the_same, ways_are_read, whole_forms_have_texts};
pub use reader::{PieceWays, Starts, WayReader};
pub use way::{Spot, Way, WayState};
