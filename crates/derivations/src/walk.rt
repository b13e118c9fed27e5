//! The type of walks.

ghost use Rattle.std.specs.Prelude.{◌≤◌, ◌<◌, length, vec_capacity};
ghost use Rattle.derivations.specs.Forks.{AreForks, maybe_rank};

use crate::fork::{Fork, Piece};

/// A derivation, ready to be written as often as one likes. What it stands for is `sentence_in` of
/// specs/. The type keeps that all the memory that writing needs is taken.
#[derive(Debug, Drop)]
pub struct Walk {
    pub(crate) forks: Vec<Fork>,
    pub(crate) root: Option<Piece>,
    pub(crate) stack: Vec<Piece>,
    pub(crate) chunk: Vec<u8>,
    ghost lawful: { AreForks forks.items },
    ghost rooted: { maybe_rank root ≤ length forks.items },
    ghost deep: { length forks.items < vec_capacity stack },
    ghost wide: { 4096 ≤ vec_capacity chunk },
}
