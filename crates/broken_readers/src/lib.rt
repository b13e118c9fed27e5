//! Readers that tell which pages are broken: by the loose forms exactly (`Broken` of page_model),
//! by the coarse form in few states and only of some pages. Promise: `loose_ways` and `coarse_ways`
//! make the ways of these readers (`AreLooseWays`, `AreCoarseWays` of specs/Starts), and by the
//! laws of `laws` each puts out one bad token over a page where that is broken, and nothing else
//! (`LooseTellsBroken`, `CoarseTellsBroken` of specs/Laws).
//! Used by: broken_search, script_decision.
#![tactic(auto)]

mod class;
mod coarse;
pub mod laws;
mod loose;
mod starting;
mod ways;

pub use ways::{coarse_ways, loose_ways};
