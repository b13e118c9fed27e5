//! Files that are kept once they are read; and lists of scripts: their names, the answers for them, one
//! by one, and the report on them.
//! Promise: `ReadOnce` is a `Files` that tells what it was given (`told_with` of specs/Kept): its `read` keeps the first answer for a name
//! (`first`), and answers by it the next times (`again`). `read_list` gives the names in a text (`names_in` of specs/Listed), each line of
//! `site` is an answer for its name alone (`AreAnswered` of specs/Site), and `report` writes them (`report` of specs/Report).
//! Used by: phpsa_texts, phpsa_tasks, phpsa_main, phpsa, check_rows.
#![tactic(auto)]

mod answers;
mod keeping;
mod kept_files;
mod line;
mod list_refusal;
mod listing;
mod read_once;
mod reading;
mod reporting;
mod sites;

pub use answers::Answers;
pub use kept_files::{KEPT_LIMIT, KeptFile, KeptFiles};
pub use line::{FAULT_STATUS, Line, MISSING_STATUS};
pub use list_refusal::{ListRefusal, NAMES_LIMIT};
pub use listing::read_list;
pub use read_once::ReadOnce;
pub use reporting::report;
pub use sites::site;
