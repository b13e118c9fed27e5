//! The types of templates.

use php_syntax::token::{Part, PartKey};
use text_base::Bytes;

/// A text in double quotes, or the lines of a heredoc.
#[derive(Clone, Copy, Debug)]
pub enum Enclosure {
    Quotes,
    Lines,
}

/// What one place of a template gives: a byte, or a variable with its keys.
#[derive(Debug, Drop)]
pub enum TextUnit {
    Byte(u8),
    Reads(Bytes, Vec<PartKey>),
}

/// The parts of a template, and how many bytes it takes; or how many bytes stand before its first
/// wrong place; or it has no end.
#[derive(Debug, Drop)]
pub enum TextRow {
    Whole(Vec<Part>, usize),
    Broken(usize),
    Endless,
}
