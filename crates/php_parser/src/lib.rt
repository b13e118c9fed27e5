//! The tokens of a script to its tree, over the grammar of script_grammar alone.
//! Promise: `parse` answers a tree that the tokens spell (clause `tree`, over `SpellsTree` of
//! script_grammar), and no other (`only`); it refuses them only where they spell none, are too
//! deep, or memory is wanting (`refused`, `IsCauseOf` of specs/Refusals).
//! Used by: php_writer, program_files, program_sizes, program_loader, phpsa_texts, reading_tests.
#![tactic(auto)]

mod brackets;
pub mod laws;
mod parser;
mod refusal;

pub use parser::parse;
pub use refusal::ParseRefusal;
