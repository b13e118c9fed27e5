//! A law of page_steps on the attributes of an element, for declarations with lawful types.
//! Promise: read in turn each may stand, and all that have to are there, exactly where they are as
//! page_model asks (`attributes_may`, over `AttributesMay` of specs/Laws and `attributes_fit` of
//! page_model).
//! Used by: tag_steps, page_endings, front_laws.
#![tactic(auto)]

pub mod laws;
