//! Of which states of the reader of pages (page_steps) a piece can come: a test by kinds of open
//! pieces (`can_end` of specs/Ending). Promise (specs/Laws): by a lawful definition some bytes end
//! the piece of each state that passes and has the shape that the steps keep (`BytesEnd`), and each
//! state from which some bytes end a piece passes (`EndsCan`). No code stands here.
//! Used by: page_narrowing, exact_fronts, state_testing, merged_reader.
#![tactic(auto)]

pub mod laws;
