//! A grammar whose texts are those of another grammar that have at most so many bytes.
//! Promise: `cut` gives one that derives exactly these (clause `texts`), or says that it has too many
//! items (`cause`).
//! Used by: script_decision.
#![tactic(auto)]

mod counting;
mod cutting;

pub use cutting::cut;
