//! Whether a piece can still come of what is open in a page, in memory: the test by which a reader
//! of pages fails as soon as none can. Promise: `passes` is, through `plain_held` of open_pieces,
//! the function of the same name in page_narrowing (specs/Passing there), which is `can_end` of
//! page_endings, at the table of a definition.
//! Used by: page_stepping.
#![tactic(auto)]

mod attributes;
mod beginnings;
mod declared;
mod fixed;
mod going_on;
mod names;
mod pieces;
mod several;
mod states;
mod values;

pub use states::passes;
