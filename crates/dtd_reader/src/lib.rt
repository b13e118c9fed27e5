//! Document type definitions from files, in one pass with a stack of what is left of each open
//! entity. Promise: `read_dtd` answers Ok only with a table that the file spells (`spelled`:
//! `DtdSpells` of dtd_texts), and each refusal with its cause (`refused`: `IsCause` of
//! specs/Refusals), by what is told behind the call; no count of the source rises but that of a file not read.
//! Used by: document_types, phpsa_texts, phpsa_tasks, dtd_tests, page_reader_tests.
#![tactic(auto)]

mod choices;
mod definition;
mod frames;
pub mod limits;
mod loading;
mod outcome;
mod reader;
mod reading;
mod refusal;
mod table_laws;

pub use definition::read_dtd;
pub use reading::read_text;
pub use refusal::DtdRefusal;
pub use table_laws::{nothing_wrong, one_table, refused_for_limits};
