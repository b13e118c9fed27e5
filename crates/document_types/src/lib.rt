//! The document types that a word of the command line may name (`strict`, `mini`, or that of a
//! file), and their definitions. Promise: `DocumentType::definition` answers Ok only with a
//! definition that has the table of the type (`ok`: `HasTable` of specs/DocumentTypes), and each
//! refusal with its cause (`err`: `IsDefinitionRefusal`).
//! Used by phpsa_texts, phpsa_tasks, phpsa_main, check_rows and others.
#![tactic(auto)]

mod built_in;
mod declarations;
mod document_type;
mod entities;
mod one_file;
mod refusal;
mod text;

pub use built_in::{read_strict, strict};
pub use document_type::DocumentType;
pub use one_file::OneFile;
pub use refusal::DefinitionRefusal;
pub use text::strict_text;
