//! A document type definition whose elements and entities are found by name through a hash index,
//! made once for a page.
//! Promise: `element` and `has_entity` of `IndexedDtd` say exactly what the table of the definition
//! says (`table_of` of dtd_model, `names_of_rules` of specs/Keys).
//! Used by page_rules, way_reader, page_reader, merged_reader and others.
#![tactic(auto)]

mod indexed;
mod indexing;
mod names;

pub use indexed::IndexedDtd;
pub use names::NameIndex;
