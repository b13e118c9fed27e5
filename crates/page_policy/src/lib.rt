//! Patterns of pages, and their files.
//! Promise: `read_policy` answers the one pattern that a file spells (`Spells` of specs/Grammar), as
//! the expression of the texts that fit it (`Fits` of specs/Patterns), or a refusal with its cause
//! (`IsCause` of specs/Refusals).
//! Used by: script_decision, phpsa_texts, phpsa_tasks, phpsa_main, base_tests.
#![tactic(auto)]

mod building;
mod bytes;
mod cutting;
mod forms;
mod frame;
mod laws;
mod part;
mod parts;
mod pattern;
mod reading;
mod refusal;
mod scan;

pub use laws::{a_file_spells_one_pattern, forms_match_what_fits};
pub use pattern::Pattern;
pub use reading::read_policy;
pub use refusal::{OPEN_LIMIT, POLICY_LIMIT, PolicyRefusal};
