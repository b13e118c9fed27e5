//! The law of the reader of a page (page_steps) in the XML declaration. Promise: behind `<?xml` and
//! white space it comes to an end exactly behind a declaration (`DeclarationsRead` of specs/Laws,
//! over `IsDeclaration` of page_model). No code stands here.
//! Used by: page_reads.
#![tactic(auto)]

pub mod laws;
