//! From a program of points to a system of productions and operations whose start has exactly the
//! loose pages of the program (`Loose` of loose_sets).
//! Promise: the clauses of `extract`: `pages`, `rules` (specs/Rules), `made` (specs/ListedMade) and
//! `bounded` (specs/Bounds); `extract_over` says the same by any `Reading`.
//! Used by: loose_grammar, extraction_tests, extraction_bench.
#![tactic(auto)]

mod entries;
mod extracting;
mod flow_lister;
mod lister;
mod listing;
mod naming;
mod numbering;
mod page_extracting;
mod params;
mod readings;
mod request_extracting;
mod tables;
mod work;

pub use extracting::extract;
pub use flow_lister::FlowLister;
pub use lister::Lister;
pub use naming::forms_by;
pub use page_extracting::extract_by;
pub use readings::{Plain, Reading};
pub use request_extracting::extract_over;
pub use tables::{FlowTables, tables_of};
pub use work::Work;
