//! Sets of texts that are the least ones to meet a table, which says for each set, by its name, how
//! its texts are made of others, and when two tables have the same sets: definitions and laws.
//! States `In`, `Byte` and `IsCircular` (specs/Sets) and `Simulates` (specs/Simulations); the laws
//! stand in src/laws.rt and proofs/Simulated.
//! Used by op_bytes, system_writing, loose_sets, loose_soundness and others.
#![tactic(auto)]

pub mod laws;
