//! Versions of slots (static single assignment): for each slot that a point reads, the definition
//! that reaches it, or a join of those that come to the first point of a row of points, where they
//! are not one and the same version.
//! Promise: the definitions behind a version of `ssa` are exactly those that reach the point
//! (`IsExact` of specs/Versions); where joins stand and what each joins is `AreJoins`.
//! Used by: point_listing, extraction, lowering_tests, extraction_bench.
#![tactic(auto)]

pub mod join_rows;
pub mod joins;
pub mod marks;
pub mod places;
pub mod remaking;
pub mod rows;
pub mod version;
pub mod versions;

pub use version::{Definition, Version};
pub use versions::{Versions, ssa};
