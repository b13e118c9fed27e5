//! Showing a page.

ghost use Rattle.std.specs.Prelude.{◌≡◌, ℕ, List, take, IfOk};
ghost use Rattle.text_base.specs.declared.letter.Letter.{Letter};
ghost use Rattle.text_base.specs.declared.numbers.Nt as nt;
ghost use Rattle.cfg_grammar.specs.declared.production.Production as productions;
ghost use Rattle.derivations.specs.Stands.{IsDerivation};
ghost use Rattle.derivations.specs.Bytes.{bytes_in};
ghost use Rattle.script_decision.specs.Shows.{Shows};

use derivations::{Derivation, length, lengths_are_right, prepare, yield_into};
use io_edge::{MemSink, SinkFault};
use std::alloc::Global;
use text_base::{Bytes, NoMemory};

/// The most bytes of a page that are shown.
pub const PAGE_LIMIT: u64 = 1_048_576;

/// What is shown of a page.
#[derive(Debug, PartialEq, Eq, Drop)]
pub struct ShownPage {
    /// The number of its bytes, at most the largest `u64`.
    pub length: u64,
    /// Its first bytes, at most `PAGE_LIMIT`.
    pub front: Bytes,
}

/// The first bytes of the page of a derivation.
fn front_of(alloc: Global, derivation: &Derivation) -> Result<Bytes, NoMemory>
    ensures { IfOk result
        (λ front. (ps : List productions.Production) (left : nt.Nt) (w : List Letter) →
        IsDerivation ps derivation.now.nodes.nodes.items left w → front
        ≡ take PAGE_LIMIT (bytes_in w)) }
{
    let mut walk = prepare(alloc, derivation)?;
    let mut sink = MemSink::new(alloc, None);
    match yield_into(&mut walk, PAGE_LIMIT, &mut sink) {
        Ok(()) => Bytes::from_slice(alloc, sink.written()),
        // The sink has room for all, so that nothing but memory was wanting.
        Err(SinkFault::Failed) | Err(SinkFault::Memory) => Err(NoMemory),
    }
}

/// What is shown of the page of a derivation. The time is linear in the nodes and in what is shown,
/// however long the page is.
///
/// # Errors
///
/// Want of memory.
pub fn show_page(alloc: Global, derivation: &Derivation) -> Result<ShownPage, NoMemory>
    ensures { IfOk result
        (λ shown. (ps : List productions.Production) (left : nt.Nt) (w : List Letter) →
        IsDerivation ps derivation.now.nodes.nodes.items left w → Shows (bytes_in w) shown) }
{
    lengths_are_right();
    let front = front_of(alloc, derivation)?;
    Ok(ShownPage {
        length: length(derivation),
        front,
    })
}
