//! The machine.

ghost use Rattle.std.specs.Prelude.{◌≡◌, ⊤, ℕ, ◌+◌, List, IfOk, map};
ghost use Rattle.text_base.specs.declared.letter.Letter.{Letter};
ghost use Rattle.fst_core.specs.declared.out.Out.TheVariants.{Token};
ghost use Rattle.byte_readers.specs.Reading.{emitted};
ghost use Rattle.echoing_machine.specs.Groups.{AreMovesBelow};
ghost use Rattle.echoing_machine.specs.Echoes.{EchoStep, EchoEnd, IsEcho};

use crate::groups::add_run;
use crate::outputs::{echo_out, tokens_out};
use crate::runs::{RunReader, run_from};
use byte_readers::ByteReader;
use fst_core::{Machine, Move, Out};
use std::alloc::Global;
use text_base::{ByteRange, NoMemory};

/// The machine that puts out what it reads, with the tokens of a reader before each byte at which
/// they are put out, and behind the text.
#[derive(Drop)]
pub struct Echoing<R: RunReader + Drop> {
    pub reader: R,
}

/// The moves from a state by the bytes of a range, with one move for neighbours that do the same.
/// The reader is asked once for each run that it tells.
fn moves_by<R: RunReader>(
    alloc: Global,
    reader: &R,
    state: &R::State,
    range: ByteRange,
) -> Result<Vec<Move<R::State>>, NoMemory>
    ensures { IfOk result
        (λ moves. AreMovesBelow (R.next reader.now state.now) (R.puts reader.now state.now) range.lo
        (range.hi + 1) moves.items) }
{
    let mut moves = Vec::new(alloc);
    let mut next = u16::from(range.lo);
    while next <= u16::from(range.hi) {
        let run = run_from(reader, state, next as u8, range.hi);
        let step = reader.step(alloc, state, run.lo)?;
        let out = echo_out(alloc, step.emit)?;
        add_run(&mut moves, run, step.to, out)?;
        next = u16::from(run.hi) + 1;
    }
    Ok(moves)
}

/// What is put out where the text ends in a state.
fn last_out<R: ByteReader>(
    alloc: Global,
    reader: &R,
    state: &R::State,
) -> Result<Vec<Out>, NoMemory>
    ensures { IfOk result (λ out. out.items ≡ map Token (R.lasts reader.now state.now)) }
{
    tokens_out(alloc, reader.last(state))
}

impl<R: RunReader + Drop> Machine for Echoing<R> {
    type State = R::State;

    ghost first = { λ m. R.first m.reader };

    ghost steps = { λ m s byte t letters. EchoStep (R.next m.reader) (R.puts m.reader) (R.lasts m.reader) s byte t letters };

    ghost ends = { λ m s letters. EchoEnd (R.next m.reader) (R.puts m.reader) (R.lasts m.reader) s letters };

    ghost gives = { λ m s. ⊤ };

    fn copy(&self, alloc: Global, state: &R::State) -> Result<R::State, NoMemory> {
        self.reader.copy(alloc, state)
    }

    fn start(&self, alloc: Global) -> Result<R::State, NoMemory> {
        self.reader.start(alloc)
    }

    fn moves(
        &self,
        alloc: Global,
        state: &R::State,
        range: ByteRange,
    ) -> Result<Vec<Move<R::State>>, NoMemory> {
        let moves = moves_by(alloc, &self.reader, state, range)?;
        Ok(moves)
    }

    fn last(&self, alloc: Global, state: &R::State) -> Result<Vec<Vec<Out>>, NoMemory> {
        let out = last_out(alloc, &self.reader, state)?;
        let mut lasts = Vec::new(alloc);
        lasts.push(out)?;
        Ok(lasts)
    }
}

/// What the machine of a reader puts out over a text is the text with the reader's tokens between
/// its bytes.
pub fn machine_echoes<R: ByteReader>(reader: &R)
    ensures { IsEcho (R.next reader.now) (R.puts reader.now) (R.lasts reader.now)
        (R.first reader.now) }
{}
