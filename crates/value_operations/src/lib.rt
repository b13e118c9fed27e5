//! What the operations of a script do with values: text form, truth and key, identity and loose
//! comparison, arithmetic, and joining as texts.
//! Promise: each call answers what the definition of its name in plain_values gives, with its fault
//! or want of memory (clauses `ok`, `err`); `same` answers whether two plain values are equal.
//! Used by: request_reading, point_listing, php_builtins, expr_evaluator, script_runs, values_bench.
#![tactic(auto)]

mod arithmetic;
mod comparison;
mod forms;
mod identity;
mod joins;

pub use arithmetic::{
    decremented, difference, incremented, integer_quotient, negated, number_of, product, remainder,
    sum,
};
pub use comparison::{compare, less, loose_equal};
pub use forms::{key_of, key_of_text, text_of, truth};
pub use identity::same;
pub use joins::{append_to, join, length_of};
