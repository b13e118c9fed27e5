//! Sums of page tokens by a document type definition, computed (`Segments`, a `Summary` of tag_sums).
//! Promise: its sums are `sum_of` of tag_sums by the automaton of the definition that it was given
//! (`automaton_of` of specs/Parts), and two that `==` finds equal are one (specs/Decided).
//! Used by: page_decision, decision_tests, decision_bench.
#![tactic(auto)]

mod meet;
mod rows;
mod rules;
mod segments;
mod state_set;
mod steps;
mod sum;
mod summary;

pub use segments::Segments;
pub use sum::SegmentSum;
