//! What pages are read by.

use dtd_model::Dtd;
use way_reader::PieceWays;

/// A definition, and the ways in which the pieces of its pages begin.
#[derive(Clone, Copy)]
pub(crate) struct PageWays<'p> {
    pub dtd: &'p Dtd,
    pub ways: &'p PieceWays,
}
