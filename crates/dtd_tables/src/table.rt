//! The table of declarations.

ghost use Rattle.std.specs.Prelude.{◌≡◌, true, map, IfOk, IfErr};
ghost use Rattle.dtd_model.specs.Lawful.{are_names};
ghost use Rattle.dtd_model.specs.TableOf as tables;
ghost use Rattle.dtd_entities.specs.Positions.{written_of};
ghost use Rattle.dtd_tables.specs.Causes.{IsTableCause};
ghost use Rattle.dtd_tables.specs.Spelled.{IsTable};

use crate::elements::put_lists;
use crate::names::names_of;
use crate::parts::parts_of;
use crate::refusal::TableRefusal;
use dtd_entities::Written;
use dtd_model::{DoctypeRule, Dtd};
use indexmap::IndexSet;
use std::alloc::Global;
use text_base::{Bytes, NoMemory};

// The names of the entities, in order.
fn copies(alloc: Global, names: &IndexSet<Bytes>) -> Result<Vec<Bytes>, NoMemory>
    ensures { IfOk result (λ list. list.items ≡ names.now.keys) }
{
    let mut list = Vec::new(alloc);
    for name in names {
        list.push(name.copy(alloc)?)?;
    }
    Ok(list)
}

/// The document type definition that declarations make, with these general entities, in time linear
/// in their text. Where an attribute is declared twice for an element the first declaration counts,
/// and attribute lists for elements that are not declared say nothing (XML 1.0, 3.3). A page needs
/// no document type declaration.
///
/// # Errors
///
/// `Twice` where an element is declared twice, `Undeclared` where a content model names an element
/// that is not declared, `Refused` and `LeftOut` with the place where such a declaration begins,
/// `Limit`, and `Memory`.
pub fn table_of(
    alloc: Global,
    written: &[Written],
    generals: &IndexSet<Bytes>,
) -> Result<Dtd, TableRefusal>
    requires { are_names generals.now.keys ≡ true }
    ensures table { IfOk result
        (λ dtd. IsTable (map written_of written.now) generals.now.keys (tables.table_of dtd)) }
    ensures refused { IfErr result (IsTableCause (map written_of written.now)) }
{
    let names = names_of(alloc, written)?;
    let parts = parts_of(alloc, &names, written)?;
    let mut elements = parts.elements;
    put_lists(alloc, &names, &mut elements, parts.lists)?;
    let entities = copies(alloc, generals)?;
    Ok(Dtd {
        elements,
        entities,
        doctype: DoctypeRule::Free,
    })
}
