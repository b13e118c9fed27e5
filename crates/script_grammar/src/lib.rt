//! The grammar of scripts and the rules beside it: which tree a token list spells, by derivations
//! in EBNF form (`SpellsTree` of specs/Grammar).
//! Promise: calls such as `binary_of` and `keyword_named` answer what is defined (`binary_operator`
//! of specs/Operators, `keyword_of` of specs/Terminals).
//! Used by program_rules, expr_machine, expr_laws, expr_builder and others.
#![tactic(auto)]

pub mod keyword;
pub mod operator;
pub mod reserved;
pub mod shapes;
