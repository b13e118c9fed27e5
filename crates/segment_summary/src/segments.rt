//! The type of the summary by segments.

ghost use Rattle.std.specs.Prelude.{◌≡◌, ◌≤◌, length};
ghost use Rattle.content_automata.specs.declared.limits.TheConstants.{STATE_LIMIT};
ghost use Rattle.content_automata.specs.Decides.{HasOwners};

use content_automata::Contents;
use page_automata::Besides;

/// The summary of page tokens by a document type definition: the states of its content models,
/// and what the page's own rules ask. The type keeps that each state belongs to an element.
#[derive(Debug, Drop)]
pub struct Segments {
    pub(crate) contents: Contents,
    pub(crate) besides: Vec<Besides>,
    pub(crate) root: u64,
    pub(crate) is_free: bool,
    ghost owners: { HasOwners (length besides.items) contents },
    ghost firsts: { length contents.0 ≡ length besides.items },
    ghost few: { length contents.1 ≤ STATE_LIMIT },
}
