//! Walks over the trees of a script: copies, a visit of each expression, and the calls in a file.
//! Promise: a copy has the same plain form; behind a visit the state of a `Visitor` is moved on by
//! each expression in turn (`collected` of program_expressions); `find_calls` lists the calls of
//! statements and functions as program_rules does (`calls_seen` of specs/Seen).
//! Used by: include_expansion, function_rules, program_lowering.
#![tactic(auto)]

mod call;
mod call_finding;
mod copies;
mod expression_visits;
mod params;
mod statement_visits;
mod visitor;

pub use call::Call;
pub use call_finding::find_calls;
pub use copies::{copy_expr, copy_exprs, copy_maybe};
pub use expression_visits::{visit_expr, visit_exprs, visit_maybe};
pub use params::{copy_params, copy_variable};
pub use statement_visits::{visit_bodies, visit_functions, visit_stmts};
pub use visitor::Visitor;
