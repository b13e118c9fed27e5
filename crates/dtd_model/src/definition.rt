//! A document type definition.

ghost use Rattle.std.specs.Prelude.{◌≡◌, true, map};
ghost use Rattle.dtd_model.specs.Lawful.{is_lawful};
ghost use Rattle.dtd_model.specs.Table.{rule_of};

use crate::dtd::{DoctypeRule, ElementRule};
use text_base::Bytes;

/// A document type definition (XML 1.0, 2.8): what is declared for the pages that it describes.
///
/// The type keeps that this is lawful: at most 1,024 elements with at most 64 attributes each,
/// names that are distinct and are names, choices of name tokens, and content models that are at
/// most 402 high, have no empty choice and name declared elements alone.
#[derive(Debug, Drop)]
pub struct Dtd {
    /// The declared elements. An [`Elem`](text_base::Elem) is the place of one in this list.
    pub elements: Vec<ElementRule>,
    /// The names of the declared general entities, besides the five of XML 1.0, 4.6.
    pub entities: Vec<Bytes>,
    /// What a page has to say of its document type.
    pub doctype: DoctypeRule,
    pub ghost lawful: { is_lawful (map rule_of elements.items) entities.items ≡ true },
}
