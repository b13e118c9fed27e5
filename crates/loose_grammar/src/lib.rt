//! The grammar of the loose pages of a program: its points, the system of its sets, and one grammar
//! of the same texts, without what stands in no derivation.
//! Promise: `loose_grammar` derives exactly the loose pages (`DerivePages` of specs/Pages, clause
//! `pages`), and refuses only by a cause (`IsGrammarRefusal` of specs/Refusals).
//! Used by: script_decision, phpsa_tasks, phpsa_main.
#![tactic(auto)]

mod making;
mod outside;
mod refusal;

pub use making::{PageGrammar, loose_grammar};
pub use refusal::{GrammarRefusal, ITEM_LIMIT};
