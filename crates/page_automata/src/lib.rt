//! The automaton over labels of a document type definition, and what its pages are; definitions and
//! laws, no code. Promise: the automaton is lawful, its pages are the trees that are as declared
//! (`page_is_tree`: specs/Laws), and a sum is whole exactly where the tokens are those of such a tree
//! (`whole_is_tree`: `WholeIsTree` of specs/Whole, over `TokenTree` of page_model).
//! Used by: segment_summary, page_decision, decision_tests.
#![tactic(auto)]

mod besides;
mod laws;

pub use besides::Besides;
pub use laws::{page_is_tree, whole_is_tree};
