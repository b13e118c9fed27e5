//! A shortest text of a grammar that is not whole by a summary of the tokens that a machine puts
//! between its bytes, and a shortest page that is not good. Promise: `shortest` says `Whole` only
//! where each text is whole, `Shortest` only with a derivation of one that is not, and than which no
//! shorter one is not, and a limit only where it is passed with each shorter text whole (`answer`:
//! `IsShortTextAnswer` of specs/ShortTexts); `shortest_page` says the same of pages
//! (`IsShortPageAnswer` of specs/ShortPages).
#![tactic(auto)]

mod finding;
mod paging;

pub use finding::shortest;
pub use paging::shortest_page;
pub use short_sentences::ShortAnswer;
