//! Which trees some file spells, a writer of them, and the law that ties it to the reader.
//! Promise: `well_formed` is true exactly where some file spells the tree and it is at most 200
//! high (`IsSpelled` of specs/Spelled); of such a tree `write_tree` gives bytes that spell it
//! (`Spells`), and what `read_back` reads is the tree again (`same`).
//! Used by: reading_tests.
#![tactic(auto)]

mod expression_tests;
mod expressions;
mod file_tests;
mod files;
mod heads;
mod marks;
mod names;
mod openers;
mod places;
mod reads;
mod round;
mod shapes;
mod statement_tests;
mod statements;
mod unread;

pub use file_tests::well_formed;
pub use files::write_tree;
pub use round::read_back;
pub use unread::Unread;
