//! The values of a script: a copy costs a count, a write goes in place or copies a level.
//! Promise: `write`, `read`, `member`, `get`, `put`, `push` and `append` answer what the
//! definitions of plain_values give, with their faults (clauses `ok`, `err`), over `plain_of` of
//! specs/View; nothing of the sharing shows.
//! Used by value_operations, request_reading, flow_code, program_lowering and others.
#![tactic(auto)]

mod array;
mod key;
mod members;
mod paths;
mod text;
mod walk;

pub use array::{Array, Value};
pub use key::{Key, KeyText};
pub use text::Text;
pub use walk::Walk;
