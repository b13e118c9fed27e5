//! Laws of the readers of pages, `PageReader` and `MergedReader`, by each definition. Promise
//! (specs/Laws): two pages with one front (`HasFront` of page_model), a bad one too, lead each
//! reader to one state (`LeadsAlike`), and behind a bad front it puts out the same whatever more
//! stands there (`EndsBad`). No code stands here.
//! Used by: page_lexer.
#![tactic(auto)]

pub mod laws;
