//! A table with the places of the moves and ends of each state.

ghost use Rattle.std.specs.Prelude.{◌≡◌, ◌<◌, map, vec_len, IfOk};
ghost use Rattle.numbered_sets.specs.Places.{ArePlaces, AreInOrder};

use crate::table::Table;
use numbered_sets::places_by;
use std::alloc::Global;
use text_base::NoMemory;

/// A table with the places of the moves and ends of each state, so that what a state does is found
/// in time of the answer.
#[derive(Drop)]
pub struct IndexedTable {
    pub table: Table,
    /// For each state the places of its moves, in their order.
    pub move_places: Vec<Vec<usize>>,
    /// For each state the places of its ends, in their order.
    pub end_places: Vec<Vec<usize>>,
    ghost moves_len: { vec_len move_places ≡ table.states },
    ghost moves_order: { AreInOrder (map (λ m. m.from) table.moves.items) move_places.items },
    ghost ends_len: { vec_len end_places ≡ table.states },
    ghost ends_order: { AreInOrder (map (λ e. e.state) table.ends.items) end_places.items },
}

/// For each state the places of its moves in the table.
pub(crate) fn moves_by_state(alloc: Global, table: &Table) -> Result<Vec<Vec<usize>>, NoMemory>
    ensures len { IfOk result (λ places. vec_len places ≡ table.now.states) }
    ensures exact { IfOk result
        (λ places. ArePlaces (map (λ m. m.from) table.now.moves.items) places.items) }
    ensures order { IfOk result
        (λ places. AreInOrder (map (λ m. m.from) table.now.moves.items) places.items) }
{
    let keys: Vec<u64> = table.moves.iter().map(|step| step.from).collect(alloc)?;
    let places = places_by(alloc, table.states, keys.as_slice())?;
    Ok(places)
}

/// For each state the places of its ends in the table.
fn ends_by_state(alloc: Global, table: &Table) -> Result<Vec<Vec<usize>>, NoMemory>
    ensures len { IfOk result (λ places. vec_len places ≡ table.now.states) }
    ensures order { IfOk result
        (λ places. AreInOrder (map (λ e. e.state) table.now.ends.items) places.items) }
{
    let keys: Vec<u64> = table.ends.iter().map(|end| end.state).collect(alloc)?;
    let places = places_by(alloc, table.states, keys.as_slice())?;
    Ok(places)
}

impl IndexedTable {
    /// The table with its places, in time of its states, moves and ends.
    pub fn new(alloc: Global, table: Table) -> Result<IndexedTable, NoMemory>
        ensures { IfOk result (λ indexed. indexed.table ≡ table) }
    {
        let move_places = moves_by_state(alloc, &table)?;
        let end_places = ends_by_state(alloc, &table)?;
        Ok(IndexedTable {
            table,
            move_places,
            end_places,
        })
    }
}
