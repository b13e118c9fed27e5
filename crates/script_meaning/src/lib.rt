//! What a script means: what a run prints for a request within a number of units, and how it ends
//! (`meaning` of specs/Meaning).
//! Promise: laws, as that more units change no run that ended, and print no less
//! (`more_units_change_nothing`, `more_units_print_more`).
//! Used by request_reading, program_rules, include_expansion, program_sizes and others.
#![tactic(auto)]

mod laws;
mod literals;

pub use literals::{Literal, literal_negative, literal_number, literal_text, unsigned_literal};
