//! Laws of the reader of a page inside references, comments, CDATA sections, instructions and
//! document type declarations.
//! Promise: from behind its opener the reader comes to an end exactly behind a lawful one, with its
//! place and tokens (`references_read` and its like, over `ReadsFrom` of specs/Laws).
//! Used by: tag_steps, opener_steps, target_steps, declaration_steps, page_reads, front_laws.
#![tactic(auto)]

pub mod laws;
