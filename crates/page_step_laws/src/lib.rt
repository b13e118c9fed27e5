//! Laws of page_steps as a whole, from characters to bytes.
//! Promise: where the reader by characters reads the pieces of a page (`Reads` of piece_steps), the
//! one by bytes puts out exactly the tokens of page_model (`tokens_by_reading`, over
//! `TokensByReading` of specs/Laws).
//! Used by page_reads, page_endings, page_narrowing, front_laws and others.
#![tactic(auto)]

pub mod laws;
