//! Expressions of a script as points, calls among them.
//! Promise: `lower_expr` puts behind the points so far exactly those that `code` of flow_code has
//! for the expression, whose value is then in the slot that it gives (`Emits` of flow_lowering);
//! `lower_exprs` does so for expressions in a row, `finish_call` for a call behind its arguments.
//! Used by: program_lowering, loose_grammar.
#![tactic(auto)]

mod alone;
mod builtins;
mod calls;
mod cuts;
mod defaults;
mod error;
mod expressions;

pub use calls::finish_call;
pub use error::LoweringError;
pub use expressions::{lower_expr, lower_exprs};
