//! What a list of page tokens does to the elements that stand open: sums of tags, as definitions with
//! their laws, and the trait `Summary` for a decision over a grammar.
//! Promise: sums compose (`SumsCompose` of specs/Laws), one is whole exactly where the tokens are
//! those of a page (`WholeIsPage`).
//! Used by dyck_balance, page_automata, segment_summary, page_decision and others.
#![tactic(auto)]

mod laws;
mod summary;

pub use laws::{associative, nesting, one_token, sums_compose, whole_is_page};
pub use summary::Summary;
