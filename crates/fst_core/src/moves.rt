//! The lines of a table: its moves and its ends.

use crate::out::Out;
use text_base::ByteRange;

/// A move of a table: by each byte of the range, from one state to another.
#[derive(Drop)]
pub struct TableMove {
    pub from: u64,
    pub range: ByteRange,
    pub out: Vec<Out>,
    pub to: u64,
}

/// A state in which a table may stop, and what it puts out there.
#[derive(Drop)]
pub struct TableEnd {
    pub state: u64,
    pub out: Vec<Out>,
}

/// What a state does by a byte: where it goes and what it puts out.
#[derive(Drop)]
pub struct Action {
    pub to: u64,
    pub out: Vec<Out>,
}
