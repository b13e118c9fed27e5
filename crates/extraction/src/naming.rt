//! The forms of a set by its name.

ghost use Rattle.std.specs.Prelude.{◌≡◌, IfOk, OnOk};
ghost use Rattle.point_listing.specs.Forms.{forms_seen};
ghost use Rattle.loose_sets.specs.Table as names;
ghost use Rattle.point_listing.specs.Places.{Adds};
ghost use Rattle.extraction.specs.Tables.{lists_of, further_forms};

use crate::entries::{push_entered, push_results};
use crate::tables::FlowTables;
use loose_sets::{SetName, SetVersion};
use point_listing::{NamedForm, Place, push_links, push_members, push_named, push_shown};
use std::alloc::Global;
use text_base::NoMemory;

// The point to which a set belongs, if it belongs to one.
#[tactic(auto, unfolding(loose_sets::specs::Table::point_of))]
fn point_of(name: SetName) -> Option<u64>
    ensures { result ≡ names.point_of name }
{
    match name {
        SetName::Value(_, SetVersion::Point(point)) => Some(point),
        SetName::Input(point) => Some(point),
        SetName::Output(point) => Some(point),
        SetName::Joined(point, _) => Some(point),
        SetName::Piece(point) => Some(point),
        SetName::FurtherPiece(point) => Some(point),
        SetName::FurtherPieces(point) => Some(point),
        SetName::Out(point, _) => Some(point),
        SetName::Value(_, SetVersion::Entry(..) | SetVersion::Join(..))
        | SetName::Members(..)
        | SetName::Shown(_)
        | SetName::Result(..) => None,
    }
}

// Of a set that belongs to a version or a function.
#[tactic(auto, using(point_listing::proofs::PlaceLemmas::ends), unfolding(crate::specs::Tables::further_forms))]
fn push_further(
    alloc: Global,
    forms: &mut Vec<NamedForm>,
    tables: &FlowTables<'_>,
    name: SetName,
) -> Result<(), NoMemory>
    ensures { OnOk result (Adds forms.old.items forms.new.items (further_forms tables.now name)) }
{
    match name {
        SetName::Value(aspect, SetVersion::Entry(function, slot)) => {
            push_entered(alloc, forms, tables, aspect, function, slot)
        }
        SetName::Value(aspect, SetVersion::Join(point, slot)) => {
            push_links(forms, &tables.versions, aspect, point, slot)
        }
        SetName::Members(half, version) => push_members(forms, &tables.told, half, version),
        SetName::Shown(version) => push_shown(alloc, forms, version),
        SetName::Result(aspect, function) => push_results(forms, tables, aspect, function),
        SetName::Value(_, SetVersion::Point(_))
        | SetName::Input(_)
        | SetName::Output(_)
        | SetName::Joined(..)
        | SetName::Piece(_)
        | SetName::FurtherPiece(_)
        | SetName::FurtherPieces(_)
        | SetName::Out(..) => Ok(()),
    }
}

// Of any set.
fn push_forms(
    alloc: Global,
    forms: &mut Vec<NamedForm>,
    tables: &FlowTables<'_>,
    name: SetName,
) -> Result<(), NoMemory>
    ensures { OnOk result (Adds forms.old.items forms.new.items (lists_of tables.now name)) }
{
    let Some(point) = point_of(name) else {
        return push_further(alloc, forms, tables, name);
    };
    let place = Place {
        told: &tables.told,
        versions: &tables.versions,
        point,
    };
    push_named(
        alloc,
        forms,
        &tables.flow.functions,
        &tables.row,
        &place,
        name,
    )
}

/// The forms of a set by its name: all ways in which its texts are made. Linear in these, beside
/// the parts of the point to which the set belongs.
pub fn forms_by(
    alloc: Global,
    tables: &FlowTables<'_>,
    name: SetName,
) -> Result<Vec<NamedForm>, NoMemory>
    ensures { IfOk result (λ forms. forms_seen forms.items ≡ lists_of tables.now name) }
{
    let mut forms = Vec::new(alloc);
    push_forms(alloc, &mut forms, tables, name)?;
    Ok(forms)
}
