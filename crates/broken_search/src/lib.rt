//! Searches among the pages that a grammar derives one that is broken by a definition.
//! Promise: `find_broken_page` gives a derivation of such a page (`IsBrokenPage` of specs/Found),
//! and None only where the grammar derives none; `Large` has its cause (`IsSearchCause`).
//! Used by: script_decision.
#![tactic(auto)]

mod searching;

pub use searching::find_broken_page;
