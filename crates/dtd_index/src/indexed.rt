//! A document type definition with its names indexed.

ghost use Rattle.std.specs.Prelude.{◌≡◌};
ghost use Rattle.dtd_index.specs.Keys.{element_names};

use crate::names::NameIndex;
use dtd_model::Dtd;

/// A document type definition, whose elements and entities are found by name in time that does
/// not grow with their number.
#[derive(Debug, Drop)]
pub struct IndexedDtd<'d> {
    /// The definition.
    pub dtd: &'d Dtd,
    pub(crate) elements: NameIndex,
    pub(crate) entities: NameIndex,
    ghost elements_are: { elements ≡ element_names dtd.now.elements.items },
    ghost entities_are: { entities ≡ dtd.now.entities.items },
}
