//! Tests of document type definitions: of dtd_reader, of XHTML 1.0 Strict as it is built in
//! (document_types), of content_automata and of page_validator.
//! Texts with the tables that XML 1.0 gives them, content models with children that fit them and
//! that do not, and where in a page a fault shows.
//! Used by: none; it stands at the top.
#![tactic(auto)]

mod contents;
#[cfg(test)]
mod cuts;
#[cfg(test)]
mod deep;
#[cfg(test)]
mod models;
#[cfg(test)]
mod outcome;
#[cfg(test)]
mod places;
#[cfg(test)]
mod rows;
#[cfg(test)]
mod strict_tests;
#[cfg(test)]
mod w3c;
