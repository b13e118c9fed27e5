//! The element of a tag.

use dtd_model::ElementRule;
use text_base::Elem;

/// The declared element of a tag.
#[derive(Clone, Copy)]
pub struct TagElement<'a> {
    /// Its place among the declared ones.
    pub element: Elem,
    /// Its declaration.
    pub rule: &'a ElementRule,
}
