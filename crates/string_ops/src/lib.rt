//! For each operation on texts but `Op::Any` a machine, as a table that is built state by state,
//! which relates exactly the inputs and outputs that the operation does.
//! Promise: the table of `machine_of` is an `IsMachine` (specs/Listed): exact over bytes, without
//! page tokens, and small for the size of the operation.
//! Used by: resolving, image_tests, string_ops_bench.
#![tactic(auto)]

mod breaks;
mod bytewise;
mod cut;
mod cut_back;
mod factor;
mod first;
mod html;
mod machine;
mod outs;
mod piece;
mod plan;
mod replace;
mod same;
mod search;
mod trim;

pub use machine::machine_of;
