//! The grammar of an image, out of its chart, and where its productions come from. Promise:
//! `grammar_of` gives a grammar that has exactly the productions of the image (`image`: `IsImageOf`
//! of specs/Images), and the places of those that its first ones come of, where no passage is one
//! of a page token (`sources`: `AreSources` of specs/Sources).
//! Used by: page_decision, grammar_image.
#![tactic(auto)]

mod assembly;
mod fronts;
mod lifts;
mod outputs;
mod saying;
mod symbols;

pub use assembly::{SourcedGrammar, grammar_of};
pub use fronts::{Front, front_of};
pub use lifts::{Last, write_wholes};
pub use outputs::{write_ends, write_fronts, write_readings};
pub use saying::{Head, Outputs, Said};
pub use symbols::symbols_of;
