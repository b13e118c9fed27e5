//! Whether each sentence of a grammar of page tokens is whole by a summary of tag_sums. Promise:
//! `decide` says `Yes` only where every sentence of the start is whole, `No` only with a derivation
//! of one that is not, and `Pairs` or `Tags` only where that limit is passed with every sentence of
//! a smaller height whole (`IsVerdict` of specs/Verdicts).
//! Used by echoing_machine, page_decision, short_sentences, broken_readers and others.
#![tactic(auto)]

mod adding;
mod beginning;
mod deciding;
mod halt;
mod joining;
mod joint;
mod laws;
mod letters;
mod meeting;
mod noting;
mod question;
mod running;
mod table;
mod taking;
mod using;
mod verdict;

pub use adding::{add, add_known};
pub use beginning::begin;
pub use deciding::decide;
pub use halt::Halt;
pub use joining::sum_number;
pub use joint::{Joint, Side, other, parts};
pub use laws::closed_pairs;
pub use letters::{Piece, letter};
pub use meeting::{compose, meet, sum_of_pair};
pub use question::Question;
pub use table::{Entry, Join, Table, Taken};
pub use taking::take;
pub use using::{Uses, uses_on};
pub use verdict::{TAG_LIMIT, Verdict};
