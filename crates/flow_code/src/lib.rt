//! Programs as points: a function is a list of numbered points, each of which sets a slot, prints,
//! branches, calls or ends. States: which points a program becomes (`flat` of specs/Flat), what a
//! run of points that ends prints (`FlatRun` of specs/Runs), and what a program of points keeps
//! (`IsFlow` of specs/Lawful). Types and definitions alone; no call stands here.
//! Used by flow_graph, loose_sets, flow_runs, loose_soundness and others.
#![tactic(auto)]

pub mod point;
pub mod program;
pub mod source;

pub use point::FlowPoint;
pub use program::{FlowFunction, FlowProgram};
pub use source::{KeyRef, Source, Work};
