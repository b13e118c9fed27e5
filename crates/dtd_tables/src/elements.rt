//! Attribute lists to their elements.

ghost use Rattle.std.specs.Prelude.{◌≡◌, true, map, IfOk, IfErr};
ghost use Rattle.xml_text.specs.Names as spelled;
ghost use Rattle.dtd_model.specs.Lawful.{is_distinct};
ghost use Rattle.dtd_model.specs.Table.{rule_of, declared_of};
ghost use Rattle.dtd_texts.specs.ContentModels.{number_of};
ghost use Rattle.dtd_tables.specs.Updates.{updated, rule_names, HaveFew};
ghost use Rattle.dtd_tables.specs.Views.{list_said, updated_by, IsListCause, AreListCauses, IsNamed, AreNamed};

use crate::attributes::add_all;
use crate::parts::List;
use crate::refusal::TableRefusal;
use dtd_declarations::{Fault, Names};
use dtd_model::ElementRule;
use std::alloc::Global;
use text_base::{Bytes, NoMemory};

// The place of the element of this name.
fn place_of(alloc: Global, names: &Names, name: &Bytes) -> Result<Option<usize>, NoMemory>
    requires { spelled.is_name name.now ≡ true }
    ensures { IfOk result (λ place. place ≡ number_of names.now name.now) }
{
    match names.element(alloc, name.as_slice()) {
        Ok(element) => Ok(Some(element.0 as usize)),
        Err(Fault::Undeclared(_)) => Ok(None),
        Err(Fault::Memory) => Err(NoMemory),
        Err(_) => unreachable!(),
    }
}

// An attribute list to its element, where that is declared.
fn put_list(
    alloc: Global,
    names: &Names,
    elements: &mut Vec<ElementRule>,
    list: List,
) -> Result<(), TableRefusal>
    requires named { IsNamed list }
    requires names { rule_names (map rule_of elements.old.items) ≡ names.now }
    requires once { is_distinct names.now ≡ true }
    requires few { HaveFew (map rule_of elements.old.items) }
    ensures put { IfOk result (λ done. map rule_of elements.new.items
        ≡ updated list.name (map declared_of list.rules.items) (map rule_of elements.old.items)) }
    ensures few { IfOk result (λ done. HaveFew (map rule_of elements.new.items)) }
    ensures many { IfErr result (IsListCause (map rule_of elements.old.items) list) }
{
    match place_of(alloc, names, &list.name)? {
        None => Ok(()),
        Some(place) => {
            add_all(&mut elements[place].attributes, list.rules)?;
            Ok(())
        }
    }
}

/// The attribute lists to their elements, one after another; those for elements that are not
/// declared say nothing.
pub fn put_lists(
    alloc: Global,
    names: &Names,
    elements: &mut Vec<ElementRule>,
    lists: Vec<List>,
) -> Result<(), TableRefusal>
    requires named { AreNamed lists.items }
    requires names { rule_names (map rule_of elements.old.items) ≡ names.now }
    requires once { is_distinct names.now ≡ true }
    requires few { HaveFew (map rule_of elements.old.items) }
    ensures put { IfOk result (λ done. map rule_of elements.new.items
        ≡ updated_by (map list_said lists.items) (map rule_of elements.old.items)) }
    ensures few { IfOk result (λ done. HaveFew (map rule_of elements.new.items)) }
    ensures many { IfErr result (AreListCauses (map rule_of elements.old.items) lists.items) }
{
    for list in lists {
        put_list(alloc, names, elements, list)?;
    }
    Ok(())
}
