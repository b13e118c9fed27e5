//! Readers that go over a text byte by byte and put out page tokens (`ByteReader`).
//! Promise: the calls of a reader are its pure functions `first`, `next`, `puts` and `lasts`, from
//! which its tokens over a text follow (`tokens_over` of specs/Reading); where its states stand for
//! those of a reader of pieces, both put out the same (`Mirrors` of specs/Mirrors).
//! Used by echoing_machine, page_decision, remark_stepping, way_reader and others.
#![tactic(auto)]

mod emit;
mod reader;

pub use emit::Emit;
pub use reader::{ByteReader, ReaderStep};
