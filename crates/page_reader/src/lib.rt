//! The reader of pages, as code (`PageReader`, a `ByteReader`): by a document type definition, byte
//! by byte, as the narrowed reader of page_narrowing (specs/States). Promise: over each page of
//! bytes it puts out exactly the tokens of the page (`reads_pages`: `IsReaderOf` of specs/Laws,
//! over `PageTokens` of page_model).
//! Used by: merged_reader, reader_fronts, page_lexer, page_reader_tests.
#![tactic(auto)]

pub mod laws;
mod reader;
mod state;

pub use reader::PageReader;
pub use state::ReaderState;
