//! The content models of a definition as finite automata, over sets of positions (Glushkov 1961).
//! Promise: by `build`, children lead from the state of an element to an accepting one exactly
//! where dtd_model's `matches` says so, and to a state exactly where a list that begins so matches
//! (`Decides`, `GoesOn` of specs/Decides).
//! Used by page_validator, page_automata, segment_summary, script_decision and others.
#![tactic(auto)]

mod contents;
mod counts;
mod explore;
mod flags;
mod laws;
mod limits;
mod model;
mod places;
mod refusal;
mod sets;
mod table;

pub use contents::{Contents, build};
pub use flags::Flags;
pub use laws::{positions_decide, sets_decide};
pub use limits::{MOVE_LIMIT, PAIR_LIMIT, STATE_LIMIT};
pub use places::{Behind, Place, first_of, places_of};
pub use refusal::ContentRefusal;
pub use sets::{set_of, steps};
