//! The index of a document type definition.

ghost use Rattle.std.specs.Prelude.{◌≡◌, IfOk, bytes_eq, position};
ghost use Rattle.std.specs.List.{list_any};
ghost use Rattle.dtd_model.specs.TableOf.{table_of};
ghost use Rattle.dtd_index.specs.Keys.{element_names, names_of_rules};

use crate::indexed::IndexedDtd;
use crate::names::NameIndex;
use dtd_model::Dtd;
use std::alloc::Global;
use text_base::NoMemory;

fn elements(alloc: Global, dtd: &Dtd) -> Result<NameIndex, NoMemory>
    ensures { IfOk result (λ index. index ≡ element_names dtd.now.elements.items) }
{
    let mut index = NameIndex::new(alloc);
    for rule in &dtd.elements {
        index.put(alloc, &rule.name)?;
    }
    Ok(index)
}

fn entities(alloc: Global, dtd: &Dtd) -> Result<NameIndex, NoMemory>
    ensures { IfOk result (λ index. index ≡ dtd.now.entities.items) }
{
    let mut index = NameIndex::new(alloc);
    for name in &dtd.entities {
        index.put(alloc, name)?;
    }
    Ok(index)
}

impl<'d> IndexedDtd<'d> {
    /// The definition with its index. Linear in the lengths of its names.
    pub fn new(alloc: Global, dtd: &'d Dtd) -> Result<IndexedDtd<'d>, NoMemory>
        ensures { IfOk result (λ indexed. indexed.dtd.now ≡ dtd.now) }
    {
        let elements = elements(alloc, dtd)?;
        let entities = entities(alloc, dtd)?;
        Ok(IndexedDtd {
            dtd,
            elements,
            entities,
        })
    }

    /// The place of the element of this name among the declared ones; none where none is
    /// declared (XML 1.0, 3.2).
    pub fn element(&self, name: &[char]) -> Option<usize>
        ensures { result ≡ position (bytes_eq name.now)
            (names_of_rules (table_of self.now.dtd.now).elements) }
    {
        self.elements.place(name)
    }

    /// Whether an entity of this name is declared (XML 1.0, 4.2).
    pub fn has_entity(&self, name: &[char]) -> bool
        ensures { result ≡ list_any (bytes_eq name.now) (table_of self.now.dtd.now).entities }
    {
        self.entities.has(name)
    }
}
