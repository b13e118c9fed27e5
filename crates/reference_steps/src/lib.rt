//! Laws of page_steps on references and on the values of attributes.
//! Promise: what stands between `&` and `;` ends well exactly where it is a reference that is known
//! (`references_accepted`), and what stands in quotes exactly where it is a value that the
//! attribute may have (`values_accepted`, over `ValuesAccepted` of specs/Laws).
//! Used by: page_insides, element_attributes, declaration_steps, page_reads, front_laws.
#![tactic(auto)]

pub mod laws;
