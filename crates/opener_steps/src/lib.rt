//! Laws of the reader of a page (page_steps) where a piece begins. Promise (specs/Laws): a
//! character that stands for itself and the byte order mark are read to their end, `<` and `&` lead
//! into an open piece (`FirstRead`), what stands behind `<` leads into its kind of open piece
//! (`OpenersRead`), and nothing else is read to an end. No code stands here.
//! Used by: page_reads.
#![tactic(auto)]

pub mod laws;
