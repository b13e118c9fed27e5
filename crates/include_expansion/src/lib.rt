//! Files with each include replaced by the statements of its file, their order, and laws of both.
//! Promise: `expand_statements` and `expand_functions` give what `bodies_within` of specs/Within
//! computes, which files stand for (`statements_stand_for`); `order_files` gives an order of
//! includes, or a file that includes itself (`IsFileOrder` of specs/FileOrder).
//! Used by: program_sizes, function_rules, program_loader.
#![tactic(auto)]

mod edges;
mod expansion_keeps;
mod expansion_laws;
mod functions;
mod order;
mod parts;
mod reading_laws;
mod statements;

pub use expansion_keeps::{calls_are_in_files, forms_are_kept, rules_are_kept};
pub use expansion_laws::{
    no_include_is_left, none_includes_itself, statements_have_places, statements_stand_for,
};
pub use functions::expand_functions;
pub use order::order_files;
pub use reading_laws::{files_of_the_program, names_looked_at};
pub use statements::expand_statements;
