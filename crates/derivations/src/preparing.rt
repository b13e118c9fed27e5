//! From the nodes of a derivation to forks.

ghost use Rattle.std.specs.Prelude.{◌≡◌, ◌≤◌, ◌<◌, ◌-◌, ℕ, List, [], length, Some, slice_get, IfOk, OnOk};
ghost use Rattle.text_base.specs.declared.letter.Letter.{Letter};
ghost use Rattle.text_base.specs.declared.numbers.Nt as nt;
ghost use Rattle.cfg_grammar.specs.declared.production.Production as productions;
ghost use Rattle.derivations.specs.Lawful.{AreLawful};
ghost use Rattle.derivations.specs.Stands.{IsDerivation};
ghost use Rattle.derivations.specs.Bytes.{bytes_in};
ghost use Rattle.derivations.specs.Forks.{AreForks, maybe_rank};
ghost use Rattle.derivations.specs.Pieces.{piece_of_part, Joins, Makes, ArePieces};
ghost use Rattle.derivations.specs.Walks.{sentence_in};

use crate::fork::{CHUNK, Fork, Piece};
use crate::walk::Walk;
use crate::{Derivation, Node, Part, Parts};
use std::alloc::Global;
use text_base::NoMemory;

/// The piece of a part.
fn piece_of(pieces: &[Option<Piece>], part: Part) -> Option<Piece>
    ensures { result ≡ piece_of_part pieces.now part }
{
    match part {
        Part::Byte(byte) => Some(Piece::Byte(byte)),
        Part::Token(_) => None,
        Part::Inner(node) => match pieces.get(node as usize) {
            Some(piece) => *piece,
            None => None,
        },
    }
}

/// Puts a fork behind the others.
fn push_fork(forks: &mut Vec<Fork>, first: Piece, second: Piece) -> Result<Piece, NoMemory>
    ensures { IfOk result
        (λ made. Joins forks.old.items forks.new.items (Some first) (Some second) (Some made)) }
{
    let place = forks.len() as u64;
    forks.push(Fork { first, second })?;
    Ok(Piece::Fork(place))
}

/// The piece of two pieces, one behind the other.
fn join(
    forks: &mut Vec<Fork>,
    first: Option<Piece>,
    second: Option<Piece>,
) -> Result<Option<Piece>, NoMemory>
    ensures { IfOk result (λ made. Joins forks.old.items forks.new.items first second made) }
{
    match (first, second) {
        (None, second) => Ok(second),
        (Some(first), None) => Ok(Some(first)),
        (Some(first), Some(second)) => {
            let piece = push_fork(forks, first, second)?;
            Ok(Some(piece))
        }
    }
}

/// The piece of a node with these parts.
fn make(
    forks: &mut Vec<Fork>,
    pieces: &[Option<Piece>],
    parts: Parts,
) -> Result<Option<Piece>, NoMemory>
    ensures { IfOk result (λ made. Makes forks.old.items forks.new.items pieces.now parts made) }
{
    match parts {
        Parts::Empty => Ok(None),
        Parts::One(a) => Ok(piece_of(pieces, a)),
        Parts::Two(a, b) => join(forks, piece_of(pieces, a), piece_of(pieces, b)),
    }
}

/// The pieces of all nodes.
fn pieces_of(
    alloc: Global,
    nodes: &[Node],
    forks: &mut Vec<Fork>,
) -> Result<Vec<Option<Piece>>, NoMemory>
    requires lawful { AreLawful nodes.now }
    requires none { forks.old.items ≡ [] }
    ensures pieces { IfOk result (λ pieces. ArePieces nodes.now forks.new.items pieces.items) }
    ensures all { IfOk result (λ pieces. length pieces.items ≡ length nodes.now) }
{
    let mut pieces = Vec::new(alloc);
    for node in nodes {
        let piece = make(forks, pieces.as_slice(), node.parts)?;
        pieces.push(piece)?;
    }
    Ok(pieces)
}

/// The piece of the last node.
fn last_piece(pieces: &[Option<Piece>]) -> Option<Piece>
    requires { 0 < length pieces.now }
    ensures { slice_get pieces.now (length pieces.now - 1) ≡ Some result }
{
    pieces[pieces.len() - 1]
}

/// Makes a derivation ready to be written: all the memory that this needs is taken here. The time
/// is linear in the nodes.
pub fn prepare(alloc: Global, derivation: &Derivation) -> Result<Walk, NoMemory>
    ensures { IfOk result
        (λ walk. (ps : List productions.Production) (left : nt.Nt) (w : List Letter) →
        IsDerivation ps derivation.now.nodes.nodes.items left w → sentence_in walk ≡ bytes_in w) }
{
    let mut forks = Vec::new(alloc);
    let pieces = pieces_of(alloc, derivation.nodes.as_slice(), &mut forks)?;
    let root = last_piece(pieces.as_slice());
    let stack = Vec::with_capacity(alloc, forks.len() + 1)?;
    let chunk = Vec::with_capacity(alloc, CHUNK)?;
    Ok(Walk {
        forks,
        root,
        stack,
        chunk,
    })
}
