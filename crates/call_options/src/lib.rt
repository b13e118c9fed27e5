//! The options that a file of TOML gives, put into the words of a call that do not say them.
//! Promise: `read_options` gives the options of the file or why it gives none (`outcome`, `IsCause` of specs/Outcome); `put_options` makes
//! of words exactly those with the options put in (`with_options` of specs/Words); `options_for` does both over a source of files
//! (`HasOptions`, `IsFault` of specs/Reading).
//! Law of `laws`: canonical words with options put in ask for what they say, and where they say nothing for what the options say.
//! Used by: phpsa_texts, phpsa, check_rows.
#![tactic(auto)]

mod asking;
pub mod laws;
mod members;
mod putting;
mod reading;
mod refusal;
mod saying;
mod setting;
mod taking;

pub use asking::{OPTIONS_FILE, options_for};
pub use putting::put_options;
pub use reading::read_options;
pub use refusal::{OptionsFault, OptionsRefusal};
pub use setting::Setting;
