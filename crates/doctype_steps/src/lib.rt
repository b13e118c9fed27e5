//! The law of page_steps on document type declarations, read character by character behind
//! `<!DOCTYPE`.
//! Promise: each that a definition allows is left at its end, and what is left is such a
//! declaration (`doctypes_left`, over `DoctypesLeft` of specs/Laws).
//! Used by: page_insides, page_reads, front_laws.
#![tactic(auto)]

pub mod laws;
