//! A reader of pages whose states are the forms that a text can still be of, as definitions.
//! Promise: by each lawful definition it reads the pieces of a page and nothing else
//! (`forms_are_read`), so it puts out a page's tokens (`page_tokens_are_read`, over `PageTokens`).
//! Used by: way_reader, broken_readers, script_decision.
#![tactic(auto)]

mod laws;

pub use laws::{forms_are_read, page_tokens_are_read, reading_fails_at_once};
