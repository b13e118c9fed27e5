//! Document type definitions, as the type `Dtd` and as plain tables (specs/Table); which children
//! an element may have is `matches` of specs/Matches.
//! Promise: a `Dtd` keeps `is_lawful` of specs/Lawful, and `mini` has the table of the smallest
//! document type (`mini_table` of specs/Mini).
//! Used by number_kinds, dtd_index, content_automata, page_lexer and others.
#![tactic(auto)]

mod definition;
mod dtd;
mod smallest;

pub use definition::Dtd;
pub use dtd::{AttrKind, AttrRule, Content, DoctypeRule, ElementRule, Need, Particle};
pub use smallest::mini;
