//! The loose pages of a program of points: what it may print when branches are free, each use of a
//! variable is taken apart, and an operation in a cycle gives any text over its bytes. No code but
//! the names of sets (`SetName`), which are small enough to be copied and hashed.
//! States `forms` (specs/Table), the table of the sets at any use of slots, its rows (`RowBy`), and
//! `Loose` (specs/Loose); law `versions_are_exact`, and `same_sets` of proofs/OfVersions.
//! Used by loose_soundness, ssa_form, point_listing, extraction and others.
#![tactic(auto)]

pub mod laws;
mod name;

pub use name::{Aspect, Half, Leaving, SetName, SetVersion};

/// How many keys are told apart at most.
pub const TOLD_KEYS: usize = 64;
