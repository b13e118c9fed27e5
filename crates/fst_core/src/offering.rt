//! What one move and one end of a table offer.

ghost use Rattle.std.specs.Prelude.{◌≡◌, [], ◌∷◌, ◌++◌, map, OnOk};
ghost use Rattle.fst_core.specs.Offers.{OffersMore, OffersLastMore, offer_of, offers_of};
ghost use Rattle.fst_core.specs.Choices.{stops};

use crate::machine::Move;
use crate::moves::{TableEnd, TableMove};
use crate::out::Out;
use std::alloc::Global;
use text_base::{ByteRange, NoMemory};

/// Adds what a move of the table offers in a state by the bytes of a range.
pub(crate) fn offer(
    alloc: Global,
    moves: &mut Vec<Move<u64>>,
    step: &TableMove,
    state: u64,
    range: ByteRange,
) -> Result<(), NoMemory>
    ensures more { OnOk result (OffersMore moves.old.items moves.new.items step.now state range) }
    ensures once { OnOk result (map offer_of moves.new.items
        ≡ map offer_of moves.old.items ++ offers_of (step.now ∷ []) state range) }
{
    if step.from != state {
        return Ok(());
    }
    let Some(met) = step.range.meet(range) else {
        return Ok(());
    };
    let out = Vec::from_slice(alloc, step.out.as_slice())?;
    moves.push(Move {
        range: met,
        out,
        to: step.to,
    })?;
    Ok(())
}

/// Adds what an end of the table offers in a state.
pub(crate) fn offer_last(
    alloc: Global,
    lasts: &mut Vec<Vec<Out>>,
    end: &TableEnd,
    state: u64,
) -> Result<(), NoMemory>
    ensures more { OnOk result (OffersLastMore lasts.old.items lasts.new.items end.now state) }
    ensures once { OnOk result (map (λ out. out.items) lasts.new.items
        ≡ map (λ out. out.items) lasts.old.items ++ stops (end.now ∷ []) state) }
{
    if end.state != state {
        return Ok(());
    }
    lasts.push(Vec::from_slice(alloc, end.out.as_slice())?)?;
    Ok(())
}
