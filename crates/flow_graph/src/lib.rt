//! The points of a program as a graph: what each reads, sets and leads to, what leads to it, rows
//! that are entered at their first point alone, and what functions return and are handed.
//! Promise: `steps_of`, `arrivals_of`, `heads_of`, `returned_pairs` and `Handed` give what Steps,
//! Arrivals, Heads, Returned, Handed and Found of specs/ say.
//! Used by: ssa_form, point_listing, extraction.
#![tactic(auto)]

pub mod arrivals;
mod finding;
mod groups;
mod handed;
pub mod heads;
mod reads;
mod returned;
mod rows;
pub mod step;
pub mod steps;

pub use arrivals::{Arrival, Arrivals, arrivals_of};
pub use finding::Handed;
pub use groups::{Groups, group};
pub use handed::handings;
pub use heads::heads_of;
pub use returned::returned_pairs;
pub use rows::PointRow;
pub use step::{Exits, Step};
pub use steps::steps_of;
