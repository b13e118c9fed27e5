//! Declarations of elements and attributes: from the text of a declaration, in which all references
//! are replaced, to what it says, token by token. Promise: `read_declaration` gives exactly what
//! `said` of dtd_texts says, and each refusal where that goes wrong in this way, but for want of
//! memory (`Gives` of specs/Views); `declared_element` is `declared`.
//! Used by: dtd_entities, dtd_tables, dtd_reader.
#![tactic(auto)]

mod attribute_stage;
mod attribute_steps;
mod content;
mod declaration;
mod declaration_tokens;
mod fault;
mod groups;
mod heads;
mod mixed;
mod names;
mod references;
mod scan;
mod stage;
mod token;
mod tokens;

pub use declaration::{Said, declared_element, read_declaration};
pub use declaration_tokens::behind_declaration;
pub use fault::Fault;
pub use heads::{
    Found, are_none, behind_gap, first_literal, first_word, is_end, is_percent_sign, next_literal,
    next_word,
};
pub use names::Names;
pub use references::{
    character, entity_length, is_attribute_value, is_plain_value, reference_length,
};
pub use scan::{
    begins, behind, blanks_length, front, head_is_blank, is_quote, name_length, same_letters,
};
pub use token::Token;
pub use tokens::tokens_of;
