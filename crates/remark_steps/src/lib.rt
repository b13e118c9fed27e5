//! Laws of page_steps on comments, CDATA sections and instructions, read character by character.
//! Promise: each lawful one is left at its end, and what is left is a lawful one (`comments_left`,
//! `sections_left`, `instructions_left`, over `CommentsLeft` and its like of specs/Laws).
//! Used by: page_insides, target_steps.
#![tactic(auto)]

pub mod laws;
