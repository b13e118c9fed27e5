//! What a function returns, and what its slots have where it is entered.

ghost use Rattle.std.specs.Prelude.{◌≡◌, OnOk, slice_get};
ghost use Rattle.flow_graph.specs.Tables.{pairs_seen};
ghost use Rattle.loose_sets.specs.Functions.{used_pairs, entry_forms};
ghost use Rattle.point_listing.specs.Places.{Adds};
ghost use Rattle.extraction.specs.Tables as spec;

use crate::params::is_null;
use crate::tables::FlowTables;
use loose_sets::Aspect;
use point_listing::{NamedForm, push_entry, push_pairs};
use std::alloc::Global;
use text_base::NoMemory;

// The pairs of a number.
fn pairs_of(lists: &[Vec<(u64, u64)>], number: u64) -> &[(u64, u64)]
    ensures { result.now ≡ spec.pairs_or_none (slice_get (pairs_seen lists.now) number) }
{
    match lists.get(number as usize) {
        Some(pairs) => pairs.as_slice(),
        None => &[],
    }
}

/// What the function of a number returns, behind the others. Linear in its points that return.
pub fn push_results(
    forms: &mut Vec<NamedForm>,
    tables: &FlowTables<'_>,
    aspect: Aspect,
    function: u64,
) -> Result<(), NoMemory>
    ensures { OnOk result
        (Adds forms.old.items forms.new.items (spec.result_forms tables.now aspect function)) }
{
    let pairs = pairs_of(&tables.returned, function);
    push_pairs(forms, &tables.versions, pairs, aspect)
}

/// What a slot has where the function of a number is entered, behind the others. Linear in the
/// calls that hand something in for it.
pub fn push_entered(
    alloc: Global,
    forms: &mut Vec<NamedForm>,
    tables: &FlowTables<'_>,
    aspect: Aspect,
    function: u64,
    slot: u64,
) -> Result<(), NoMemory>
    ensures { OnOk result
        (Adds forms.old.items forms.new.items (spec.entered_forms tables.now aspect function slot)) }
{
    let pairs = tables.handed.pairs(alloc, function, slot)?;
    let is_null = is_null(&tables.flow.functions, &tables.params, function, slot);
    push_entry(alloc, forms, &tables.versions, &pairs, is_null, aspect)
}
