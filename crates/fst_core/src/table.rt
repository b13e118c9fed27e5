//! The type of a machine that is listed as a table.

ghost use Rattle.std.specs.Prelude.{◌<◌, IsTrue};
ghost use Rattle.fst_core.specs.Fits.{moves_fit, ends_fit};

use crate::moves::{TableEnd, TableMove};

/// A machine with the states from 0 up to `states`, with all its moves and ends. The type keeps
/// that every state in it is below `states`, and that no `Same` and no `Shift` stands in an end.
#[derive(Drop)]
pub struct Table {
    /// How many states there are.
    pub states: u64,
    /// The state in which a run begins.
    pub start: u64,
    pub moves: Vec<TableMove>,
    pub ends: Vec<TableEnd>,
    ghost start_fits: { start < states },
    ghost moves_fit: { IsTrue (moves_fit states moves.items) },
    ghost ends_fit: { IsTrue (ends_fit states ends.items) },
}
