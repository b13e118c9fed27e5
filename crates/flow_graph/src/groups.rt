//! What calls hand in, by the function and the parameter.

ghost use Rattle.std.specs.Prelude.{◌≡◌, ◌<◌, All, length, IfOk};
ghost use Rattle.flow_graph.specs.Handed.{AreOwners, AreGroups};

use indexmap::IndexSet;
use numbered_sets::{count, number, places_by};
use std::alloc::Global;
use text_base::NoMemory;

/// For each function and parameter for which some call hands something in, the places of the items
/// in the list of all.
#[derive(Debug, Drop)]
pub struct Groups {
    /// The functions and parameters.
    pub keys: IndexSet<(u64, u64)>,
    /// By the number of each, the places of its items.
    pub places: Vec<Vec<usize>>,
}

// The number of the key of each item.
fn owners_of(
    alloc: Global,
    all: &[((u64, u64), (u64, u64))],
    keys: &mut IndexSet<(u64, u64)>,
) -> Result<Vec<u64>, NoMemory>
    ensures { IfOk result (λ owners. AreOwners all.now keys.new.keys owners.items) }
{
    let mut owners = Vec::new(alloc);
    for item in all {
        let (number, _) = number(keys, item.0)?;
        owners.push(number as u64)?;
    }
    Ok(owners)
}

/// The places of the items of each key. Linear in the items.
pub fn group(alloc: Global, all: &[((u64, u64), (u64, u64))]) -> Result<Groups, NoMemory>
    ensures { IfOk result (λ groups. AreGroups all.now groups.keys.keys groups.places.items) }
{
    let mut keys = IndexSet::new(alloc);
    let owners = owners_of(alloc, all, &mut keys)?;
    let places = places_by(alloc, count(&keys) as u64, &owners)?;
    Ok(Groups { keys, places })
}
