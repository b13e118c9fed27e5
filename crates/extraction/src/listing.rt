//! The worklist: names are taken up in the order of their places, each once, and the rows of each
//! are written at once.

ghost use Rattle.std.specs.Prelude.{◌≡◌, ◌<◌, length, slice_get, Contains, IfOk, IfSome, OnOk};
ghost use Rattle.loose_sets.specs.declared.name.SetName as plain;
ghost use Rattle.numbered_sets.specs.Numbers.{AreDifferent};
ghost use Rattle.point_listing.specs.Forms.{form_seen, forms_seen};
ghost use Rattle.extraction.specs.Numbered.{NamedIn};
ghost use Rattle.extraction.specs.Steps.{IsPaired, IsRowWritten, AddsRows, AskedIn, Begins};
ghost use Rattle.extraction.specs.Listed.{IsListed};

use crate::Lister;
use crate::numbering::{number_form, number_name};
use crate::work::Work;
use indexmap::IndexSet;
use loose_sets::SetName;
use numbered_sets::count;
use point_listing::NamedForm;
use std::alloc::Global;
use text_base::NoMemory;

/// Has the system begin with the sets of these names.
pub fn begin_with(work: &mut Work, starts: &[SetName]) -> Result<(), NoMemory>
    requires { IsPaired work.old }
    ensures { OnOk result (Begins work.old work.new starts.now) }
{
    for name in starts {
        let set = number_name(work, *name)?;
        work.draft.add_start(set)?;
    }
    Ok(())
}

/// The name at a place, if there is one.
fn name_at(names: &IndexSet<SetName>, place: u64) -> Option<SetName>
    ensures value { result ≡ slice_get names.now.keys place }
    ensures small { IfSome result (λ name. place < 9223372036854775808) }
    ensures different { AreDifferent names.now.keys }
{
    if place as usize >= count(names) {
        return None;
    }
    names.get_index(place as usize).copied()
}

/// Writes a row of a set.
fn write_row(work: &mut Work, set: u64, named: NamedForm) -> Result<(), NoMemory>
    requires { IsPaired work.old }
    ensures { OnOk result (IsRowWritten work.old work.new set (form_seen named)) }
{
    let form = number_form(work, named)?;
    work.draft.write(set, form)
}

/// Writes a row of a set for each of the forms.
fn write_rows(work: &mut Work, set: u64, forms: Vec<NamedForm>) -> Result<(), NoMemory>
    requires { IsPaired work.old }
    ensures { OnOk result (AddsRows work.old work.new (NamedIn (forms_seen forms.items)) set
        (forms_seen forms.items)) }
{
    for named in forms {
        write_row(work, set, named)?;
    }
    Ok(())
}

/// Writes the rows of a name, whose nonterminal is `set`.
fn take_up<L: Lister>(
    alloc: Global,
    lister: &L,
    work: &mut Work,
    set: u64,
    name: SetName,
) -> Result<(), NoMemory>
    requires asked { L.asks lister.now name }
    requires paired { IsPaired work.old }
    ensures { OnOk result (AddsRows work.old work.new
        (AskedIn (L.asks lister.now) (L.lists lister.now name)) set (L.lists lister.now name)) }
{
    let forms = lister.forms(alloc, name)?;
    write_rows(work, set, forms)
}

/// Writes the rows of all names, and of those that they name, and so on, which are put behind them.
/// Linear in the rows, beside what the lister takes for them.
pub fn list_all<L: Lister>(alloc: Global, lister: &L, work: &mut Work) -> Result<(), NoMemory>
    requires asked { (n : plain.SetName) → Contains work.old.names.keys n → L.asks lister.now n }
    requires paired { IsPaired work.old }
    ensures rows { OnOk result (IsListed (L.asks lister.now) (L.lists lister.now) work.old work.new
        (length work.new.names.keys)) }
    ensures different { OnOk result (AreDifferent work.new.names.keys) }
{
    let mut taken = 0u64;
    while let Some(name) = name_at(&work.names, taken) {
        let set = work.numbers[taken as usize];
        take_up(alloc, lister, work, set, name)?;
        taken += 1;
    }
    Ok(())
}
