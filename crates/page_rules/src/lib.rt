//! Pieces of a page as code over characters: cut off the head, and tested by XML and a definition.
//! Promise: `piece_at` and `is_right` are the functions of these names in page_model (specs/Reading
//! and specs/Right there); `tokens_of` gives what a piece is for the tree of the page, and none
//! exactly where the definition does not allow it (`Takes` of specs/Takes).
//! Used by way_reader, merged_reader, form_maker, reference_stepping and others.
#![tactic(auto)]

mod attribute_parts;
mod attributes;
mod characters;
mod classes;
mod declared_attributes;
mod elements;
mod numbers;
mod parts;
mod piece;
mod piece_tokens;
mod presence;
mod prolog;
mod references;
mod remarks;
mod right;
mod scan;
mod tags;
mod values;
mod words;

pub use classes::{Class, begins_name, in_name, in_public_identifier, is_blank, is_quote};
pub use declared_attributes::find_declared;
pub use elements::element;
pub use numbers::{digit_value, is_character_code};
pub use parts::{
    Attribute, Declaration, Doctype, Identifier, Literal, Piece, Place, Reference, Tag,
};
pub use piece::piece_at;
pub use piece_tokens::{Taken, tokens_of};
pub use presence::must_stand;
pub use references::{is_known, is_predefined, is_reference, refers, refers_to_known};
pub use right::is_right;
pub use scan::split;
pub use tags::reference_of;
pub use values::{has_fixed, has_kind, has_value, is_one_of};
pub use words::{is_name, is_name_token, is_named, is_some, is_word, is_word_in_any_case};
