//! The reader of pages with fewer states, as code (`MergedReader`, a `ByteReader`): as `PageReader`
//! of page_reader, but that it keeps of an open character and of an open number only what makes a
//! difference (`merged` of specs/States). Promise: over each page of bytes it puts out exactly the
//! tokens of the page (`reads_pages`: `IsMergedReaderOf` of specs/Laws).
//! Used by: reader_fronts, page_lexer, page_reader_tests, page_bench.
#![tactic(auto)]

mod alike;
mod first_bytes;
pub mod laws;
mod merging;
mod numbers;
mod reader;

pub use first_bytes::representative;
pub use merging::merged;
pub use reader::MergedReader;
