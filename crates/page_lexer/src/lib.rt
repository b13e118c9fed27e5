//! The lexer of the pages of a document type definition, by states that are numbers.
//! Promise: `PageLexer::tokens` gives exactly the tokens of a page (`PageTokens` of page_model),
//! and behind equal fronts of pages a lexer is in one state (`fronts_have_one_state`, over
//! `IsBehind` of specs/Lexing).
//! Used by: page_reader_tests, page_bench.
#![tactic(auto)]

pub mod laws;
mod lexer;
mod numbered;
mod rows;

pub use lexer::PageLexer;
pub use numbered::NumberedReader;
pub use rows::{NumberedStep, Row, StateNumber};
