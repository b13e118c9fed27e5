//! Images of grammars under machines, and the way back. Promise: the sentences of `image` are
//! exactly what the machine puts out over the texts of the grammar (`sentences`: `Outputs` of
//! fst_core), and it is small (`small`: `IsSmall`); `source_of` leads a derivation in an image that
//! copies texts back to one of the text in the grammar (`text_of` of specs/Echoes).
//! Used by script_decision, page_decision, resolving, loose_grammar and others.
#![tactic(auto)]

mod ask;
mod ends;
mod filling;
mod firsts;
mod imaged;
mod imaging;
mod leading;
mod marking;
mod refusal;
mod tracing;
mod work;

pub use imaged::Imaged;
pub use imaging::{image, image_over};
pub use refusal::ImageRefusal;
pub use tracing::source_of;
