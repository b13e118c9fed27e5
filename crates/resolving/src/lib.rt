//! Resolves a system of productions and operations into one grammar: an operation in a cycle stands
//! there as all texts over its bytes, any other as the image of its operand under its machine.
//! Promise: the sentences of `resolve` are exactly the texts of the start's set (clause `exact`, by
//! `HasLetters` of specs/Resolved), and a refusal as `Large` has its cause (specs/Causes).
//! Used by: loose_grammar, image_tests, extraction_tests.
#![tactic(auto)]

mod any_texts;
mod draft;
mod images;
pub mod laws;
mod order;
mod resolution;
mod rules;

pub use resolution::resolve;
