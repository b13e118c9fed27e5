//! One point, as an analysis sees it.

use text_base::{Point, Slot};

/// Where a point goes on.
#[derive(Clone, Copy, Debug, PartialEq, Eq)]
pub enum Exits {
    /// Nowhere: it ends the function or the run.
    Ends,
    /// At one point.
    On(Point),
    /// At one of two points.
    Either(Point, Point),
}

/// What a point does with slots, and where it goes on.
#[derive(Debug, Drop)]
pub struct Step {
    /// The slot that it sets.
    pub sets: Option<Slot>,
    /// Where it goes on.
    pub exits: Exits,
    /// The slots that it reads, in order.
    pub reads: Vec<Slot>,
}
