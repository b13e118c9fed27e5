//! What a search knows of nodes and edges.

/// How far the search has come with a node.
#[derive(Clone, Copy, Debug)]
pub enum Mark {
    /// It has not been met. So many edges lead from it.
    New(usize),
    /// It is on the path, at this place.
    Open(usize),
    /// The component with this number has it.
    Done(usize),
}

/// An edge that is still to be followed, from the node at a place of the path.
#[derive(Clone, Copy, Debug)]
pub struct Waiting {
    pub from: usize,
    pub to: usize,
}
