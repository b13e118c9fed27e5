//! A machine of any reader that goes from byte to byte and tells runs of bytes that do the same
//! (`RunReader`): it puts out the text itself with the reader's tokens between its bytes
//! (`Echoing`). Promise: over each text there is exactly this output (`echo_of`), its bytes are the
//! text and its tokens those of the reader (`machine_echoes`: `IsEcho` of specs/Echoes).
//! Used by page_decision, way_reader, broken_readers, policy_matching and others.
#![tactic(auto)]

mod groups;
mod machine;
mod outputs;
mod runs;

pub use machine::{Echoing, machine_echoes};
pub use runs::{RunReader, last_in};
