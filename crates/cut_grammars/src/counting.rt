//! The machine that counts.

ghost use Rattle.std.specs.Prelude.{◌≡◌, ◌≤◌, ◌∷◌, [], IfOk};
ghost use Rattle.fst_core.specs.declared.out.Out.TheVariants.{Same};
ghost use Rattle.cut_grammars.specs.Counts.{CountStep, CountEnd};
ghost use Rattle.cut_grammars.specs.Moves.{IsOneMove, AreMoves, IsNothing};

use fst_core::{Machine, Move, Out};
use std::alloc::Global;
use text_base::{ByteRange, NoMemory};

/// The machine that copies texts of at most `most` bytes, and reads no others. Its state is how many
/// bytes it has read.
#[derive(Drop)]
pub struct Counting {
    pub most: u64,
}

/// That a byte is put out as it is.
fn copied(alloc: Global) -> Result<Vec<Out>, NoMemory>
    ensures { IfOk result (λ out. out.items ≡ Same ∷ []) }
{
    let mut out = Vec::new(alloc);
    out.push(Out::Same)?;
    Ok(out)
}

/// One move by the bytes of a range, which copies them.
fn one_move(alloc: Global, range: ByteRange, to: u64) -> Result<Vec<Move<u64>>, NoMemory>
    ensures { IfOk result (λ moves. IsOneMove range to moves.items) }
{
    let out = copied(alloc)?;
    let mut moves = Vec::new(alloc);
    moves.push(Move { range, out, to })?;
    Ok(moves)
}

/// The moves from a state by the bytes of a range.
fn moves_from(
    alloc: Global,
    most: u64,
    state: u64,
    range: ByteRange,
) -> Result<Vec<Move<u64>>, NoMemory>
    ensures { IfOk result (λ moves. AreMoves most state range moves.items) }
{
    if state >= most {
        return Ok(Vec::new(alloc));
    }
    one_move(alloc, range, state + 1)
}

/// That nothing is put out.
fn nothing_more(alloc: Global) -> Result<Vec<Vec<Out>>, NoMemory>
    ensures { IfOk result (λ lasts. IsNothing lasts.items) }
{
    let mut lasts = Vec::new(alloc);
    lasts.push(Vec::new(alloc))?;
    Ok(lasts)
}

impl Machine for Counting {
    type State = u64;

    ghost first = { λ m. 0 };

    ghost steps = { λ m s byte t letters. CountStep m.most s byte t letters };

    ghost ends = { λ m s letters. CountEnd s letters };

    ghost gives = { λ m s. s ≤ m.most };

    fn copy(&self, _alloc: Global, state: &u64) -> Result<u64, NoMemory> {
        Ok(*state)
    }

    fn start(&self, _alloc: Global) -> Result<u64, NoMemory> {
        Ok(0)
    }

    fn moves(
        &self,
        alloc: Global,
        state: &u64,
        range: ByteRange,
    ) -> Result<Vec<Move<u64>>, NoMemory> {
        let moves = moves_from(alloc, self.most, *state, range)?;
        Ok(moves)
    }

    fn last(&self, alloc: Global, _state: &u64) -> Result<Vec<Vec<Out>>, NoMemory> {
        let lasts = nothing_more(alloc)?;
        Ok(lasts)
    }
}
