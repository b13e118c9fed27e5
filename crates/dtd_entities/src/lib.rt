//! The places of a document type definition text as code: what stands at the head of the bytes, and
//! what is known behind them, with parameter entities replaced. Promise: `Reading::step` is the
//! move of dtd_texts at the head of the bytes (its clause `value`, over `state_of` of
//! specs/Positions), `enter` and `leave` those at the beginning and the end of an entity.
//! Used by: dtd_tables, dtd_reader.
#![tactic(auto)]

mod ended;
mod entity;
mod file_name;
mod parameters;
mod places;
mod state;

pub use file_name::FileName;
pub use parameters::source_of;
pub use state::{Mode, Move, Reading, Source, Written};
