//! Derivations of a grammar as lists of nodes that may be shared, and their sentences and grammars
//! as text. Promise: what nodes are a derivation of (`IsDerivation` of specs/Stands), the
//! productions derive; `yield_into` appends exactly the first bytes of the sentence of a prepared
//! derivation (`ok`), `write_grammar` exactly `grammar_text` of specs/Text (`ok`).
//! Used by script_decision, page_decision, summary_decision, grammar_image and others.
#![tactic(auto)]

mod derivation;
mod fork;
mod grammar_lines;
mod grammar_writing;
mod laws;
mod node;
mod nodes;
mod preparing;
mod sentence_writing;
mod walk;
mod walking;

pub use derivation::{Derivation, length};
pub use grammar_writing::write_grammar;
pub use laws::{derivations_derive, lengths_are_right};
pub use node::{Node, Part, Parts};
pub use nodes::Nodes;
pub use preparing::prepare;
pub use sentence_writing::yield_into;
pub use walk::Walk;
