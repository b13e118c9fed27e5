//! The operations whose images are measured.

ghost use Rattle.std.specs.Prelude.{◌≢◌, IfOk};
ghost use Rattle.op_system.specs.declared.op.Op.TheVariants.{Any};

use crate::works::Work;
use op_system::Op;
use std::alloc::Global;
use text_base::{Bytes, NoMemory};

/// An operation on texts.
#[derive(Clone, Copy)]
pub enum Operation {
    /// `htmlspecialchars`.
    Escapes,
    /// `str_replace` with a search of 20 bytes.
    Search,
    /// `substr` with a length of 256.
    Cut,
    /// `substr` with a length of 32.
    Short,
}

impl Operation {
    /// The word that asks for its figures.
    pub fn word(self) -> &'static str {
        match self {
            Operation::Escapes => "escapes",
            Operation::Search => "search",
            Operation::Cut => "cut",
            Operation::Short => "short",
        }
    }

    /// What it is called where figures are printed.
    pub fn name(self) -> &'static str {
        match self {
            Operation::Escapes => "escapes",
            Operation::Search => "search of 20 bytes",
            Operation::Cut => "cut of 256 bytes",
            Operation::Short => "cut of 32 bytes",
        }
    }

    /// A size from which on the items of its image grow evenly, since each of its states is come to at
    /// a place and left behind another; and how many times that size is measured. Under the cut of 256
    /// bytes one place of any text and two are measured, since each further one has 2,895,619 items.
    pub fn size(self, work: Work) -> (u64, u64) {
        match (work, self) {
            (Work::Chain, Operation::Escapes) => (10, 100_000),
            (Work::Chain, Operation::Search) => (40, 25_000),
            (Work::Chain, Operation::Cut) => (500, 2_000),
            (Work::Chain, Operation::Short) => (40, 25_000),
            (Work::Choices, Operation::Escapes) => (10, 500),
            (Work::Choices, Operation::Search) => (40, 125),
            (Work::Choices, Operation::Cut) => (500, 10),
            (Work::Choices, Operation::Short) => (40, 125),
            (Work::Texts, Operation::Escapes) => (2, 500),
            (Work::Texts, Operation::Search) => (2, 500),
            (Work::Texts, Operation::Cut) => (1, 1),
            (Work::Texts, Operation::Short) => (2, 250),
        }
    }

    /// The operation itself.
    pub fn op(self, alloc: Global) -> Result<Op, NoMemory>
        ensures { IfOk result (λ op. op ≢ Any) }
    {
        match self {
            Operation::Escapes => Ok(Op::Html),
            Operation::Search => search(alloc, 19),
            Operation::Cut => Ok(front(256)),
            Operation::Short => Ok(front(32)),
        }
    }
}

// The first bytes of a text, so many of them.
fn front(count: i64) -> Op
    ensures { result ≢ Any }
{
    Op::Cut {
        start: 0,
        len: Some(count),
    }
}

/// A search of so many bytes and one, whose fronts have many borders.
pub fn search(alloc: Global, count: u32) -> Result<Op, NoMemory>
    ensures { IfOk result (λ op. op ≢ Any) }
{
    let mut search = Bytes::new(alloc);
    for _ in 0..count {
        search.push(b'a')?;
    }
    search.push(b'b')?;
    Ok(Op::Replace {
        search,
        with: Bytes::from_slice(alloc, b"-")?,
    })
}
