//! The state of a search.

ghost use Rattle.std.specs.Prelude.{◌≡◌, [], IfOk};
ghost use Rattle.strong_components.specs.Search.{AreNew};

use crate::marks::{Mark, Waiting};
use crate::order::Targets;
use std::alloc::Global;
use text_base::{NoMemory, Stack};

/// A search: the marks of nodes, the path of open nodes, where the groups of the path begin, the
/// edges that are still to be followed, and a node of each component that is found.
#[derive(Debug, Drop)]
pub struct Search {
    pub marks: Vec<Mark>,
    pub path: Vec<usize>,
    pub starts: Stack<usize>,
    pub waiting: Stack<Waiting>,
    pub roots: Vec<usize>,
}

/// Each node is new.
fn new_marks(alloc: Global, edges: &[Targets]) -> Result<Vec<Mark>, NoMemory>
    ensures { IfOk result (λ marks. AreNew edges.now marks.items) }
{
    let mut marks = Vec::new(alloc);
    for targets in edges {
        marks.push(Mark::New(targets.len()))?;
    }
    Ok(marks)
}

impl Search {
    /// A search that has met no node.
    pub fn new(alloc: Global, edges: &[Targets]) -> Result<Search, NoMemory>
        ensures { IfOk result
            (λ s. AreNew edges.now s.marks.items × (s.path.items ≡ []) × (s.starts ≡ [])
            × (s.waiting ≡ []) × (s.roots.items ≡ [])) }
    {
        let marks = new_marks(alloc, edges)?;
        Ok(Search {
            marks,
            path: Vec::new(alloc),
            starts: Stack::new(alloc),
            waiting: Stack::new(alloc),
            roots: Vec::new(alloc),
        })
    }
}
