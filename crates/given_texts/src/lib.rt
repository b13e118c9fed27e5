//! Texts that an analysis takes as given, as a grammar: those that a request may bring, and all
//! integers.
//! Promise: `given_texts` has from its start exactly all texts of XML's characters, `request_texts`
//! exactly the sentences of another grammar, and both from a second nonterminal exactly the integer
//! texts (`IsClosed` of specs/Closed).
//! Used by: system_writing, extraction, extraction_tests, string_ops_bench.
#![tactic(auto)]

mod given;
mod given_grammar;
mod given_listing;
mod joining;
mod keeping;
mod moving;
mod sums;
mod text_rows;

pub use given::GivenTexts;
pub use given_grammar::given_texts;
pub use joining::request_texts;
pub use sums::sum;
