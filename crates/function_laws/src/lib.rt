//! Laws of what operations and functions of PHP give. Promise: operations on values of a run give
//! values of a run again (`arithmetic`, `joins`, `members`, `writes`, `functions`, over `IsValue`
//! of plain_values), and what a function with an operation gives is what the operation relates
//! (`one_text` and others, over `Rel` of op_system). No code stands here.
//! Used by: request_reading, loose_soundness.
#![tactic(auto)]

mod builtin_laws;
pub mod value_laws;

pub use builtin_laws::{
    any_replacement, literal_cut, literal_pieces, literal_replacement, number_form, one_text, part,
    parts,
};
