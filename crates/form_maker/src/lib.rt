//! The forms of the pieces of a page (crate page_forms) in an arena, each by its number, and a maker
//! of such expressions for others.
//! Promise: the numbers of `all_forms` stand for the forms of a definition of documents
//! (`all_forms` of specs/Kept); each call of `Maker` makes exactly what `making_of` of specs/Making
//! says.
//! Used by: way_reader, broken_readers.
#![tactic(auto)]

mod basics;
mod characters;
mod class;
mod doctypes;
mod fixed;
mod joining;
mod maker;
mod numbers;
mod pages;
mod quotes;
mod references;
mod remarks;
mod tags;
mod test;
mod values;
mod words;

pub use class::{Base, ByteClass, CharacterTest, DigitTest};
pub use joining::Joining;
pub use maker::Maker;
pub use pages::{Made, all_forms};
pub use references::WordTest;
pub use test::ByteTest;
