//! The pieces of a page as expressions over bytes.
//! Promise: the form of a kind of piece matches exactly the bytes of the lawful pieces of that kind
//! (`IsFormOf` of specs/Laws), all together those of the pieces at a place (`PiecesAreSpelled`).
//! Used by way_reader, coarse_forms, form_reader, broken_forms and others.
#![tactic(auto)]

mod laws;

pub use laws::{
    blanks_are_spelled, bracket_is_spelled, comments_are_spelled, declarations_are_spelled,
    doctypes_are_spelled, empty_tags_are_spelled, end_tags_are_spelled, forms_are_normal,
    instructions_are_spelled, mark_is_spelled, none_goes_on, pieces_are_spelled,
    references_are_spelled, sections_are_spelled, start_tags_are_spelled, text_is_spelled,
};
