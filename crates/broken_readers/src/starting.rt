//! The ways in which pieces without tokens begin.

ghost use Rattle.std.specs.Prelude.{◌≡◌, IfOk, map};
ghost use Rattle.broken_readers.specs.Starts as spec;

use byte_readers::Emit;
use partial_derivatives::{Part, Row};
use std::alloc::Global;
use text_base::NoMemory;
use way_reader::{Spot, Way};

/// Where the loose forms are kept that may begin at the beginning of a page, each with the spot
/// behind its texts.
pub const AT_BEGINNING: [(usize, Spot); 12] = [
    (0, Spot::BehindMark),
    (1, Spot::Behind(0)),
    (2, Spot::Behind(0)),
    (3, Spot::Behind(1)),
    (8, Spot::Behind(0)),
    (12, Spot::Behind(0)),
    (4, Spot::Behind(0)),
    (5, Spot::Behind(0)),
    (6, Spot::Behind(0)),
    (7, Spot::Behind(0)),
    (13, Spot::Behind(0)),
    (14, Spot::Behind(0)),
];

/// Those behind the byte order mark.
pub const BEHIND_MARK: [(usize, Spot); 11] = [
    (1, Spot::Behind(0)),
    (2, Spot::Behind(0)),
    (3, Spot::Behind(1)),
    (9, Spot::Behind(0)),
    (12, Spot::Behind(0)),
    (4, Spot::Behind(0)),
    (5, Spot::Behind(0)),
    (6, Spot::Behind(0)),
    (7, Spot::Behind(0)),
    (13, Spot::Behind(0)),
    (14, Spot::Behind(0)),
];

/// Those behind no `]`.
pub const BEHIND_NONE: [(usize, Spot); 10] = [
    (2, Spot::Behind(0)),
    (3, Spot::Behind(1)),
    (10, Spot::Behind(0)),
    (12, Spot::Behind(0)),
    (4, Spot::Behind(0)),
    (5, Spot::Behind(0)),
    (6, Spot::Behind(0)),
    (7, Spot::Behind(0)),
    (13, Spot::Behind(0)),
    (14, Spot::Behind(0)),
];

/// Those behind one.
pub const BEHIND_ONE: [(usize, Spot); 10] = [
    (2, Spot::Behind(0)),
    (3, Spot::Behind(2)),
    (10, Spot::Behind(0)),
    (12, Spot::Behind(0)),
    (4, Spot::Behind(0)),
    (5, Spot::Behind(0)),
    (6, Spot::Behind(0)),
    (7, Spot::Behind(0)),
    (13, Spot::Behind(0)),
    (14, Spot::Behind(0)),
];

/// Those behind two or more.
pub const BEHIND_TWO: [(usize, Spot); 10] = [
    (2, Spot::Behind(0)),
    (3, Spot::Behind(2)),
    (11, Spot::Behind(0)),
    (12, Spot::Behind(0)),
    (4, Spot::Behind(0)),
    (5, Spot::Behind(0)),
    (6, Spot::Behind(0)),
    (7, Spot::Behind(0)),
    (13, Spot::Behind(0)),
    (14, Spot::Behind(0)),
];

/// The coarse form, of which it makes no difference where it stands.
pub const COARSE: [(usize, Spot); 1] = [(0, Spot::Beginning)];

/// The way that is the expression with this number as a whole.
fn silent_way(alloc: Global, numbers: &[usize], row: (usize, Spot)) -> Result<Way, NoMemory>
    ensures { IfOk result (λ way. way ≡ spec.silent_way numbers.now row) }
{
    let mut parts = Row::new(alloc);
    parts.push(Part::Whole(numbers.get(row.0).copied().unwrap_or(0)))?;
    Ok(Way {
        parts,
        emit: Emit::Nothing,
        to: row.1,
    })
}

/// The ways of rows.
pub fn silent_ways(
    alloc: Global,
    numbers: &[usize],
    rows: &[(usize, Spot)],
) -> Result<Vec<Way>, NoMemory>
    ensures { IfOk result (λ ways. ways.items ≡ map (spec.silent_way numbers.now) rows.now) }
{
    let mut ways = Vec::new(alloc);
    let mut left = rows;
    while let Some((first, others)) = left.split_first() {
        ways.push(silent_way(alloc, numbers, *first)?)?;
        left = others;
    }
    Ok(ways)
}
