//! Context-free grammars over bytes and page tokens, with at most two symbols on the right. What a
//! grammar derives is `Derives` of specs/Derives.
//! Promise: `Grammar::new` answers None exactly where a nonterminal is not below the count, which
//! the type keeps (clause `variant`, over `AreBelow` of specs/Below).
//! Used by useful_nonterminals, op_system, derivations, script_decision and others.
#![tactic(auto)]

mod bytes;
mod grammar;
mod production;
mod symbol;

pub use bytes::productions_fit;
pub use grammar::Grammar;
pub use production::{Production, Right};
pub use symbol::Symbol;
