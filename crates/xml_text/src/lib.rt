//! The characters of XML, its white space, its names, and texts of its characters in UTF-8, which
//! pages, document type definitions and requests share.
//! Promise: each call answers as the definition of its name, and `is_text` is true exactly where
//! `IsText` of specs/Texts holds.
//! Used by script_meaning, request_reading, dtd_model, number_kinds and others.
#![tactic(auto)]

mod classes;
mod names;
mod texts;

pub use classes::{is_blank, is_character};
pub use names::{begins_name, in_name, in_public_identifier, is_name};
pub use texts::is_text;
