//! The tokens and syntax trees of a script, of which all speak that read, write, mean or run one.
//! Plain forms stand in specs/Tokens and specs/Trees, heights in specs/Height.
//! Promise: `Sign::spelling` is the spelling of a sign (`spelling_of` of specs/Spelling). What
//! relates bytes to tokens is lexical_grammar, and tokens to a tree script_grammar.
//! Used by lexical_grammar, script_grammar, php_lexer, program_expressions and others.
#![tactic(auto)]

pub mod token;
pub mod tree;
