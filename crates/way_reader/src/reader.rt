//! The reader.

ghost use Rattle.std.specs.Prelude.{◌≡◌, IfOk};
ghost use Rattle.byte_readers.specs.Reading.{emitted};
ghost use Rattle.piece_steps.specs.Readers.{put_out, to_state};
ghost use Rattle.way_reader.specs.Reader.{starts_at};
ghost use Rattle.way_reader.specs.Ways.{coded, ended, first_state, move_by, next_state, place_of, tokens_at, tokens_behind, way_reader};
ghost use Rattle.way_reader.specs.Ways as spec;

use crate::moving::{step_by, ways_behind};
use crate::way::{Spot, Way, WayState};
use byte_readers::{ByteReader, Emit, ReaderStep};
use derivatives::Arena;
use partial_derivatives::Taking;
use std::alloc::Global;
use text_base::{NoMemory, PageToken};

/// The ways in which pieces begin, by where they do. Behind more than two `]` is as behind one.
#[derive(Drop)]
pub struct Starts {
    pub beginning: Vec<Way>,
    pub behind_mark: Vec<Way>,
    pub behind: Vec<Way>,
    pub behind_one: Vec<Way>,
    pub behind_two: Vec<Way>,
}

impl Starts {
    /// The ways in which a piece begins at a spot.
    pub(crate) fn at(&self, spot: Spot) -> &[Way]
        ensures { result.now ≡ starts_at self.now (place_of spot) }
    {
        match spot {
            Spot::Beginning => self.beginning.as_slice(),
            Spot::BehindMark => self.behind_mark.as_slice(),
            Spot::Behind(0) => self.behind.as_slice(),
            Spot::Behind(2) => self.behind_two.as_slice(),
            Spot::Behind(_) => self.behind_one.as_slice(),
        }
    }
}

/// The ways in which pieces begin, and the arena in which the expressions of their parts lie.
#[derive(Drop)]
pub struct PieceWays {
    pub arena: Arena,
    pub starts: Starts,
}

/// A reader of pages by the ways in which pieces begin.
#[derive(Clone, Copy, Drop)]
pub struct WayReader<'w> {
    pub ways: &'w PieceWays,
}

impl<'w> WayReader<'w> {
    /// Where a byte leads from these ways.
    fn step_from(
        &self,
        alloc: Global,
        ways: &[Way],
        byte: u8,
    ) -> Result<ReaderStep<WayState>, NoMemory>
        ensures to { IfOk result
            (λ step. step.to ≡ coded (to_state (way_reader self.now.ways.now.arena (starts_at self.now.ways.now.starts))
            (move_by (spec.ways_behind self.now.ways.now.arena byte ways.now)
            (ended self.now.ways.now.arena (spec.ways_behind self.now.ways.now.arena byte ways.now))))) }
        ensures emit { IfOk result
            (λ step. emitted step.emit ≡ put_out (way_reader self.now.ways.now.arena (starts_at self.now.ways.now.starts))
            (move_by (spec.ways_behind self.now.ways.now.arena byte ways.now)
            (ended self.now.ways.now.arena (spec.ways_behind self.now.ways.now.arena byte ways.now)))) }
    {
        let taking = Taking {
            alloc,
            arena: &self.ways.arena,
            byte,
        };
        Ok(step_by(&self.ways.arena, ways_behind(&taking, ways)?))
    }
}

impl<'w> ByteReader for WayReader<'w> {
    type State = WayState;

    ghost first = { λ r. first_state };

    ghost next = { λ r s b. next_state r.ways.now.arena (starts_at r.ways.now.starts) s b };

    ghost puts = { λ r s b. tokens_at r.ways.now.arena (starts_at r.ways.now.starts) s b };

    ghost lasts = { λ r s. tokens_behind r.ways.now.arena (starts_at r.ways.now.starts) s };

    fn copy(&self, alloc: Global, state: &WayState) -> Result<WayState, NoMemory> {
        state.copy(alloc)
    }

    fn start(&self, alloc: Global) -> Result<WayState, NoMemory> {
        let _ = alloc;
        Ok(WayState::At(Spot::Beginning))
    }

    fn step(
        &self,
        alloc: Global,
        state: &WayState,
        byte: u8,
    ) -> Result<ReaderStep<WayState>, NoMemory> {
        match state {
            WayState::Failed => Ok(ReaderStep {
                to: WayState::Failed,
                emit: Emit::Nothing,
            }),
            WayState::At(spot) => self.step_from(alloc, self.ways.starts.at(*spot), byte),
            WayState::Inside(ways) => self.step_from(alloc, ways.as_slice(), byte),
        }
    }

    fn last(&self, state: &WayState) -> Emit {
        match state {
            WayState::Failed | WayState::At(_) => Emit::Nothing,
            WayState::Inside(_) => Emit::One(PageToken::Bad),
        }
    }
}
