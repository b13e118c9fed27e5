//! The forms of the sets of a program of points, in memory: of sets that belong to points, to
//! versions of slots and to functions; and the keys of arrays that are told apart.
//! Promise: each `push_` function puts exactly one list of the table of loose_sets behind the forms
//! so far (`Adds` of specs/Places); `told_keys` gives the keys of loose_sets (specs/Views).
//! Used by: extraction.
#![tactic(auto)]

mod arrays;
mod collecting;
mod form;
mod joins;
mod key;
mod members;
mod parts;
mod places;
mod points;
mod printed;
mod pushing;
mod set_versions;
mod sources;
mod tests_of_keys;
mod values;
mod versions;
mod work;
mod writes;

pub use collecting::told_keys;
pub use form::NamedForm;
pub use joins::push_links;
pub use key::{ToldKey, place_of_key};
pub use places::Place;
pub use points::push_named;
pub use printed::push_out;
pub use pushing::{push_form, push_text, push_where};
pub use set_versions::{by_numbers, version_read};
pub use sources::{is_own_text, push_source, push_text_alone};
pub use tests_of_keys::{is_exactly, is_integer_key, may_be, may_be_other};
pub use values::push_value;
pub use versions::{push_entry, push_link, push_members, push_pairs, push_shown};
pub use work::{
    push_any_further, push_further, push_inputs, push_joined, push_outputs, push_piece,
};
