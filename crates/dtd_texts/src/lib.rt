//! What document type definition texts mean, in the words of XML 1.0: `Reads` of specs/Reading and
//! `DtdSpells` of specs/Spells, the table that a file declares. Promise: a text is read in one way
//! (`one_reading`), one that is read is not refused (`nothing_refused`), and what declarations say
//! is lawful (`IsLawfulSaid` of specs/Lawful). No code stands here.
//! Used by: dtd_declarations, dtd_entities, dtd_tables, dtd_reader, document_types.
#![tactic(auto)]

mod laws;
mod table_laws;

pub use laws::{never_larger, nothing_missing, nothing_refused, one_reading};
pub use table_laws::{declarations_are_lawful, entities_are_names};
