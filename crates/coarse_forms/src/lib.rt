//! The coarse pieces of a page as one expression over bytes: what each loose piece is made of,
//! whatever the definition of documents is. No code stands here but functions that do nothing.
//! Promise: no coarse piece goes on where another ends (`coarse_pieces_end_once`: `CoarseEndsOnce`
//! of specs/Laws), and the texts of lawful pieces are coarse ones (`lawful_texts_are_coarse`).
//! Used by: broken_forms, broken_readers, script_decision.
#![tactic(auto)]

mod laws;

pub use laws::{
    coarse_pieces_are_bytes, coarse_pieces_end_once, coarse_pieces_have_bytes,
    lawful_texts_are_coarse,
};
