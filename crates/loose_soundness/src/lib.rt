//! What an ended run prints, for every admitted request, is a loose page: laws alone.
//! States `ended_runs_print_loose_pages` twice: of runs of points (`IsFlow` and `FlatRun` of
//! flow_code, `Loose` of loose_sets), and of lawful programs whose text literals are texts of a
//! run, within any number of units (`EndedRunsPrintLoosePages` of specs/Laws).
//! Used by: script_decision.
#![tactic(auto)]

pub mod laws;
pub mod run_laws;
