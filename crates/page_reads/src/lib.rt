//! Laws that the reader of pages of page_steps reads exactly the pieces of a page. Promise: by each
//! lawful definition the reader by characters reads each lawful piece to its end and nothing else
//! (`PiecesRead` of specs/Laws), and over all bytes the reader by bytes puts out exactly the tokens
//! of page_model (`PageTokensRead`). No code stands here.
//! Used by: page_narrowing, front_laws, exact_fronts, page_reader, reader_fronts.
#![tactic(auto)]

pub mod laws;
