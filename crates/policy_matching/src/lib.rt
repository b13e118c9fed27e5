//! Whether each text that a grammar derives matches an expression of derivatives.
//! Promise: `match_all` answers `All` only where each matches, `Miss` only with a derivation of one
//! that does not, and each limit only where it is passed (`IsAnswer` of specs/Matching).
//! Used by: script_decision, decision_tests.
#![tactic(auto)]

mod answer;
mod exploring;
mod matching;
mod outside;
mod refusal;
mod rows;

pub use answer::Match;
pub use matching::match_all;
pub use refusal::STATE_LIMIT;
