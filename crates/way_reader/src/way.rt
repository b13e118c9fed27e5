//! Ways in which a piece can go on, and the states of the reader.

ghost use Rattle.std.specs.Prelude.{◌≡◌, IfOk};
ghost use Rattle.way_reader.specs.Exactness.{exact_way, exact_state};

use byte_readers::Emit;
use partial_derivatives::{Part, Row, copy_parts};
use std::alloc::Global;
use text_base::{Exact, NoMemory};

/// Where a piece begins.
#[derive(Clone, Copy, Debug, PartialEq, Eq, Hash)]
pub enum Spot {
    /// At the beginning of the page.
    Beginning,
    /// Behind the byte order mark alone.
    BehindMark,
    /// Behind other pieces, of which so many characters `]` are the last, two standing for all
    /// above.
    Behind(u8),
}

/// A way in which a piece can go on: by these parts in turn. Where they end, its tokens are put
/// out, and the next piece begins.
#[derive(Debug, PartialEq, Eq, Hash, Drop)]
pub struct Way {
    pub parts: Row<Part>,
    pub emit: Emit,
    pub to: Spot,
}

impl Exact for Way {
    ghost exact = { exact_way };
}

/// What is known of a page behind some of its bytes.
#[derive(Debug, PartialEq, Eq, Hash, Drop)]
pub enum WayState {
    /// No lawful piece comes of the rest of the page, and what stands for it is put out.
    Failed,
    /// A piece begins here.
    At(Spot),
    /// Some of a piece is read, which goes on in one of these ways.
    Inside(Row<Way>),
}

impl Exact for WayState {
    ghost exact = { exact_state };
}

impl Way {
    /// The same way once more.
    fn copy(&self, alloc: Global) -> Result<Way, NoMemory>
        ensures { IfOk result (λ way. way ≡ self.now) }
    {
        Ok(Way {
            parts: copy_parts(alloc, self.parts.as_slice())?,
            emit: self.emit,
            to: self.to,
        })
    }
}

/// The same ways once more.
fn copy_ways(alloc: Global, ways: &[Way]) -> Result<Row<Way>, NoMemory>
    ensures { IfOk result (λ row. row ≡ ways.now) }
{
    let mut row = Row::new(alloc);
    for way in ways {
        row.push(way.copy(alloc)?)?;
    }
    Ok(row)
}

impl WayState {
    /// The same state once more.
    pub fn copy(&self, alloc: Global) -> Result<WayState, NoMemory>
        ensures { IfOk result (λ s. s ≡ self.now) }
    {
        match self {
            WayState::Failed => Ok(WayState::Failed),
            WayState::At(spot) => Ok(WayState::At(*spot)),
            WayState::Inside(ways) => Ok(WayState::Inside(copy_ways(alloc, ways.as_slice())?)),
        }
    }
}
