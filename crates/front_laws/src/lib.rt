//! Laws: what the front of a page (`HasFront` of page_model) tells of the state of `narrow_reader`
//! (page_narrowing) behind it. Promise (specs/Laws): a front that is not bad is the state
//! (`FrontsLead`), two texts with one such front lead to one state (`SameFronts`), and where the
//! reader has failed the front is bad (`FailedAreBad`). No code stands here.
//! Used by: exact_fronts.
#![tactic(auto)]

pub mod laws;
