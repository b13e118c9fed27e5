//! Which attributes may stand, and which values.

use dtd_index::IndexedDtd;
use dtd_model::AttrRule;

/// Which attributes may stand, by the names of those before, and which values.
#[derive(Clone, Copy)]
pub enum Allowing<'a, 'd> {
    /// In a tag: those of an element, which are declared so in the definition, each once.
    Element(&'a IndexedDtd<'d>, &'a Vec<AttrRule>),
    /// In the XML declaration: the version, maybe the encoding and whether the page stands alone.
    Declaration,
}
