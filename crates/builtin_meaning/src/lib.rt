//! PHP's functions that a script may call, as definitions: what each gives for plain values, and
//! with which fault (`builtin_value` of specs/Values).
//! Promise: `Builtin::of` is the table of names (`builtin_named` of specs/Names), `arity` that of
//! the numbers of arguments (`arity_of` of specs/Arity).
//! Used by script_meaning, program_rules, program_sizes, function_rules and others.
#![tactic(auto)]

mod builtin;
mod named;

pub use builtin::Builtin;
