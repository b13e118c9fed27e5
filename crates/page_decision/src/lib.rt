//! Whether each page that a grammar derives is good by a goal (valid by a definition, or nested),
//! for any machine that reads the tokens of pages. Promise: `decide_pages` says yes only where each
//! page is good, no only with a derivation of one that is not, and a limit only where it is passed
//! (`verdict`: `IsPageVerdict` of specs/PageVerdicts).
//! Used by phpsa_main, broken_readers, policy_matching, script_decision and others.
#![tactic(auto)]

mod bytes;
mod deciding;
pub mod echo_laws;
mod goal;
pub mod goal_laws;
mod restoring;
mod sums;
mod text_deciding;
mod token_grammar;

pub use bytes::texts_fit;
pub use deciding::{decide_pages, find_broken};
pub use goal::Goal;
pub use restoring::page_of;
pub use sums::{PageSums, sums_of};
pub use text_deciding::{decide_texts, echo, find_wrong};
pub use token_grammar::{TokenGrammar, page_tokens_of, tokens_of};
