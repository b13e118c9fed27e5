//! The table of all states, state by state.

ghost use Rattle.std.specs.Prelude.{◌≡◌, ◌≤◌, ◌<◌, ◌⊎◌, ℕ, Bool, List, length, Contains, Some, slice_get, IfOk, IfErr, OnOk};
ghost use Rattle.content_automata.specs.Shapes.{IsSized};
ghost use Rattle.content_automata.specs.Shapes as shapes;
ghost use Rattle.content_automata.specs.Tables.{Key, Keeps, CellFits, CellsFit, Adds, AddsFound};
ghost use Rattle.content_automata.specs.Refusals.{IsOver};
ghost use Rattle.content_automata.specs.declared.limits.TheConstants.{STATE_LIMIT};
ghost use Rattle.content_automata.specs.Views.{shape_of};

use crate::Flags;
use crate::limits::STATE_LIMIT;
use crate::model::{Model, states_behind};
use crate::refusal::ContentRefusal;
use indexmap::IndexSet;
use std::alloc::Global;
use text_base::NoMemory;

fn insert(keys: &mut IndexSet<(u64, Flags)>, key: (u64, Flags)) -> Result<usize, NoMemory>
    ensures number { IfOk result (λ n. slice_get keys.new.keys n ≡ Some key) }
    ensures within { IfOk result (λ n. n < length keys.new.keys) }
    ensures keeps { Keeps keys.old.keys keys.new.keys }
    ensures only { (k : Key) → Contains keys.new.keys k → Contains keys.old.keys k ⊎ (k ≡ key) }
{
    let (number, _) = keys.insert_full(key)?;
    Ok(number)
}

/// The number of a state, a new one if it has none.
pub fn number(keys: &mut IndexSet<(u64, Flags)>, key: (u64, Flags)) -> Result<u16, ContentRefusal>
    ensures number { IfOk result (λ n. slice_get keys.new.keys n ≡ Some key) }
    ensures few { OnOk result (length keys.new.keys ≤ STATE_LIMIT) }
    ensures keeps { Keeps keys.old.keys keys.new.keys }
    ensures only { (k : Key) → Contains keys.new.keys k → Contains keys.old.keys k ⊎ (k ≡ key) }
    ensures limit { IfErr result (IsOver keys.new.keys) }
{
    let number = insert(keys, key)?;
    let count = keys.len();
    if count > STATE_LIMIT {
        return Err(ContentRefusal::Limit {
            count: count as u64,
        });
    }
    Ok(number as u16)
}

// The number of the state behind a child, where there is one.
fn cell(
    alloc: Global,
    element: u64,
    behind: &Option<Flags>,
    keys: &mut IndexSet<(u64, Flags)>,
) -> Result<Option<u16>, ContentRefusal>
    ensures cell { IfOk result (λ cell. CellFits keys.new.keys element cell behind.now) }
    ensures few { OnOk result (length keys.old.keys ≤ STATE_LIMIT → length keys.new.keys ≤ STATE_LIMIT) }
    ensures keeps { Keeps keys.old.keys keys.new.keys }
    ensures adds { AddsFound keys.old.keys keys.new.keys element behind.now }
    ensures limit { IfErr result (IsOver keys.new.keys) }
{
    match behind {
        None => Ok(None),
        Some(behind) => {
            let behind = behind.copy(alloc)?;
            let number = number(keys, (element, behind))?;
            Ok(Some(number))
        }
    }
}

/// The numbers of the states behind each child.
pub fn cells(
    alloc: Global,
    count: usize,
    model: &Model,
    element: u64,
    flags: &Flags,
    keys: &mut IndexSet<(u64, Flags)>,
) -> Result<Vec<Option<u16>>, ContentRefusal>
    requires { IsSized (shape_of model.now) flags.now }
    ensures cells { IfOk result (λ v. CellsFit keys.new.keys element
        (shapes.state_behind count (shape_of model.now) flags.now) v.items count) }
    ensures few { OnOk result (length keys.old.keys ≤ STATE_LIMIT → length keys.new.keys ≤ STATE_LIMIT) }
    ensures keeps { Keeps keys.old.keys keys.new.keys }
    ensures adds { Adds keys.old.keys keys.new.keys element count
        (shapes.state_behind count (shape_of model.now) flags.now) }
    ensures limit { IfErr result (IsOver keys.new.keys) }
{
    let row = states_behind(alloc, count, model, flags)?;
    let mut cells = Vec::new(alloc);
    for behind in &row {
        let one = cell(alloc, element, behind, keys)?;
        match cells.push(one) {
            Ok(()) => {}
            Err(_) => return Err(ContentRefusal::Memory),
        }
    }
    Ok(cells)
}
