//! The bytes of a script to its tokens.
//! Promise: `lex` gives exactly the tokens that the file is cut into (clause `tokens`, over `Cuts`
//! of lexical_grammar), and want of memory aside refuses only a file that breaks the lexical
//! grammar there, or is too long (`refused`, `IsCauseOf` of specs/Refusals).
//! Used by: php_writer, program_files, phpsa_texts, reading_tests, lexer_bench.
#![tactic(auto)]

mod blanks;
mod double;
mod found;
mod heredoc;
mod keys;
mod lead;
mod lexer;
mod numbers;
mod openers;
mod refusal;
mod scan;
mod signs;
mod single;
mod step;
mod steps;
mod template;
mod units;
mod words;

pub use lexer::lex;
pub use refusal::LexRefusal;
