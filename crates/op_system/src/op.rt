//! Operations on texts.

ghost use Rattle.std.specs.Prelude.{◌≡◌, IfOk};

use std::alloc::Global;
use text_base::{Bytes, NoMemory};

/// An operation on texts, each named for the function of PHP that it stands for.
#[derive(Debug, PartialEq, Eq, Drop)]
pub enum Op {
    /// The text itself.
    Same,
    /// Any text over the bytes of the operands.
    Any,
    /// `htmlspecialchars`, of UTF-8 alone.
    Html,
    /// `str_replace` with a search and a replacement that are known.
    Replace { search: Bytes, with: Bytes },
    /// `substr` with a start and a length that are known; no length is the rest.
    Cut { start: i64, len: Option<i64> },
    /// Each contiguous part of the text.
    Factor,
    /// `strtolower`.
    Lower,
    /// `strtoupper`.
    Upper,
    /// `ucfirst`.
    First,
    /// `trim`, `ltrim` and `rtrim`.
    Trim { left: bool, right: bool },
    /// `nl2br`.
    Breaks,
    /// `urlencode`.
    Url,
    /// `rawurlencode`.
    RawUrl,
    /// `addslashes`.
    Slashes,
    /// Each piece of `explode` with a separator that is known.
    Piece { sep: Bytes },
}

impl Op {
    /// A second operation that is the same.
    pub fn copy(&self, alloc: Global) -> Result<Op, NoMemory>
        ensures { IfOk result (λ op. op ≡ self.now) }
    {
        Ok(match self {
            Op::Same => Op::Same,
            Op::Any => Op::Any,
            Op::Html => Op::Html,
            Op::Replace { search, with } => Op::Replace {
                search: search.copy(alloc)?,
                with: with.copy(alloc)?,
            },
            Op::Cut { start, len } => Op::Cut {
                start: *start,
                len: *len,
            },
            Op::Factor => Op::Factor,
            Op::Lower => Op::Lower,
            Op::Upper => Op::Upper,
            Op::First => Op::First,
            Op::Trim { left, right } => Op::Trim {
                left: *left,
                right: *right,
            },
            Op::Breaks => Op::Breaks,
            Op::Url => Op::Url,
            Op::RawUrl => Op::RawUrl,
            Op::Slashes => Op::Slashes,
            Op::Piece { sep } => Op::Piece {
                sep: sep.copy(alloc)?,
            },
        })
    }
}
