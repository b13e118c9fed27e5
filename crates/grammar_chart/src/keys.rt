//! What a chart holds.

ghost use Rattle.grammar_chart.specs.Exactness.{exact_entry, exact_passage};

use cfg_grammar::Symbol;
use fst_core::Out;
use text_base::{ByteRange, Exact};

/// A symbol, and a state in which the machine comes to it.
#[derive(Clone, Copy, Debug, PartialEq, Eq, Hash)]
pub struct Entry {
    pub symbol: Symbol,
    pub state: u64,
}

/// The states behind the symbols of a production that are read.
#[derive(Clone, Copy, Debug, PartialEq, Eq)]
pub enum Read {
    Nothing,
    First(u64),
    Both(u64, u64),
}

/// A production by its place in the grammar, the state in which the machine comes to it, and what
/// of it is read.
#[derive(Clone, Copy, Debug, PartialEq, Eq)]
pub struct Begun {
    pub place: u64,
    pub from: u64,
    pub read: Read,
}

/// Some text of the symbol leads from the one state to the other.
#[derive(Clone, Copy, Debug, PartialEq, Eq, Hash)]
pub struct Passage {
    pub symbol: Symbol,
    pub from: u64,
    pub to: u64,
}

/// What the machine puts out as it reads a byte of a part of a range.
#[derive(Drop)]
pub struct Reading {
    /// The range that stands in the grammar.
    pub asked: ByteRange,
    pub from: u64,
    /// The part of it.
    pub range: ByteRange,
    pub out: Vec<Out>,
    pub to: u64,
}

impl Exact for Entry {
    ghost exact = { exact_entry };
}

impl Exact for Passage {
    ghost exact = { exact_passage };
}
