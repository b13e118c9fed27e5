//! Laws: the front of a page (page_model) is the state of the reader that fails as soon as no piece
//! can come (page_narrowing). Promise (specs/Laws): a front that a text has is the state behind it,
//! a bad one being no state (`FrontsAreStates`), so two texts with equal fronts lead to equal
//! states, bad ones too (`EqualFronts`). No code stands here.
//! Used by: reader_fronts.
#![tactic(auto)]

pub mod laws;
