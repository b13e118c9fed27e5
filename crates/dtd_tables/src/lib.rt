//! From the declarations of a definition text to the document type definition that they make.
//! Promise: `table_of` answers Ok only with a table of them (`table`: `IsTable` of specs/Spelled),
//! and each refusal with its cause (`refused`: `IsTableCause` of specs/Causes); `first_refused`
//! gives the place of the first declaration that is none.
//! Used by: dtd_reader.
#![tactic(auto)]

mod attributes;
mod elements;
mod names;
mod parts;
mod refusal;
mod table;

pub use parts::first_refused;
pub use refusal::TableRefusal;
pub use table::table_of;
