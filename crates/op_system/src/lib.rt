//! Operations on texts, and systems of productions and operations. What an operation relates is
//! `Rel` of specs/Rel.
//! Promise: `bytes_of_outputs` says which bytes outputs may have (`OutputByte` of specs/OpBytes);
//! `OpSystem::new` answers None exactly where its type would not hold (clause `variant`).
//! Used by function_laws, flow_code, least_sets, op_bytes and others.
#![tactic(auto)]

pub mod laws;
mod op;
mod system;

pub use op::Op;
pub use system::{OpRule, OpSystem};
