//! Is one page valid by a document type definition? One pass over its characters, with a stack of
//! its own. Promise: `check_page` answers `Ok` only where the page is `Valid` (page_model; clause
//! `valid`), `PageFault` only where it is not, and `Limit` only where the content models pass a limit
//! of content_automata (clause `fault`: `IsCause` of specs/Faults).
//! Used by: phpsa_main, dtd_tests.
#![tactic(auto)]

mod check;
mod decode;
mod laws;
mod progress;
mod refusal;
mod stage;
mod walk;

pub use check::check_page;
pub use laws::accepts_trees;
pub use progress::Progress;
pub use refusal::PageRefusal;
pub use stage::{Open, Sort, Stage};
