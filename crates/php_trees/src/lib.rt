//! The trees of the language as values of derivations by PHP's grammar, as definitions and laws.
//! Promise: tokens are read as one tree at most (`HaveOneTree` of specs/Reads), by an action for each
//! rule of the grammar of php_grammar.
//! Used by: script_rules.
#![tactic(auto)]

pub mod laws;
