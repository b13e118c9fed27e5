//! The names of the declared elements.

ghost use Rattle.std.specs.Prelude.{◌≡◌, ◌≤◌, true, map, length, IfOk, IfErr};
ghost use Rattle.dtd_model.specs.Lawful.{is_distinct, element_limit};
ghost use Rattle.dtd_entities.specs.Positions.{written_of};
ghost use Rattle.dtd_texts.specs.Tables.{element_names, declared};
ghost use Rattle.dtd_tables.specs.Views.{IsNameCause, AddsName};

use crate::refusal::TableRefusal;
use dtd_declarations::{Names, declared_element};
use dtd_entities::Written;
use std::alloc::Global;

// Puts the element that a declaration declares, if it does, behind the others.
fn put(alloc: Global, names: &mut Names, written: &Written) -> Result<(), TableRefusal>
    ensures { AddsName names.old names.new (declared (written_of written.now).text) result }
{
    if let Some(name) = declared_element(alloc, written.text.as_slice())? {
        if names.len() >= 1024 {
            return Err(TableRefusal::Limit(1025));
        }
        let copy = name.copy(alloc)?;
        if !names.put(copy)? {
            return Err(TableRefusal::Twice(name));
        }
    }
    Ok(())
}

/// The names of the elements that are declared, which differ, in order.
pub fn names_of(alloc: Global, written: &[Written]) -> Result<Names, TableRefusal>
    ensures names { IfOk result (λ names. names ≡ element_names (map written_of written.now)) }
    ensures once { IfOk result
        (λ names. is_distinct (element_names (map written_of written.now)) ≡ true) }
    ensures few { IfOk result
        (λ names. length (element_names (map written_of written.now)) ≤ element_limit) }
    ensures refused { IfErr result (IsNameCause (element_names (map written_of written.now))) }
{
    let mut names = Names::new(alloc);
    for one in written {
        put(alloc, &mut names, one)?;
    }
    let _count = names.len();
    Ok(names)
}
