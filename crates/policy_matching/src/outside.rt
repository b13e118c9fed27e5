//! The reader of what does not match.

ghost use Rattle.std.specs.Prelude.{◌≡◌, []};
ghost use Rattle.byte_readers.specs.Reading.{emitted};
ghost use Rattle.policy_matching.specs.Rows.{run_at, state_behind, told_at};

use crate::rows::{Row, Run, run_of};
use byte_readers::{ByteReader, Emit, ReaderStep};
use echoing_machine::RunReader;
use std::alloc::Global;
use text_base::{NoMemory, PageToken};

/// A reader of texts whose states are the derivatives of an expression, each by its number, the
/// expression itself first. It puts out nothing but a bad token where a text ends that does not
/// match.
#[derive(Debug, Drop)]
pub struct Outside {
    pub rows: Vec<Row>,
}

impl Outside {
    /// The run of a state that has the byte.
    fn run(&self, state: u64, byte: u8) -> Option<Run>
        ensures { result ≡ run_at self.now.rows.items state byte }
    {
        match self.rows.get(state as usize) {
            Some(row) => run_of(row.runs.as_slice(), byte),
            None => None,
        }
    }

    /// The state behind a byte.
    fn behind(&self, state: u64, byte: u8) -> u64
        ensures { result ≡ state_behind self.now.rows.items state byte }
    {
        match self.run(state, byte) {
            Some(run) => run.to,
            None => state,
        }
    }

    /// What is put out where the text ends in a state.
    fn told(&self, state: u64) -> Emit
        ensures { emitted result ≡ told_at self.now.rows.items state }
    {
        match self.rows.get(state as usize) {
            Some(row) if row.ends => Emit::Nothing,
            Some(_) => Emit::One(PageToken::Bad),
            None => Emit::Nothing,
        }
    }
}

impl ByteReader for Outside {
    type State = u64;

    ghost first = { λ o. 0 };

    ghost next = { λ o s b. state_behind o.rows.items s b };

    ghost puts = { λ o s b. [] };

    ghost lasts = { λ o s. told_at o.rows.items s };

    fn copy(&self, _alloc: Global, state: &u64) -> Result<u64, NoMemory> {
        Ok(*state)
    }

    fn start(&self, _alloc: Global) -> Result<u64, NoMemory> {
        Ok(0)
    }

    fn step(&self, _alloc: Global, state: &u64, byte: u8) -> Result<ReaderStep<u64>, NoMemory> {
        let to = self.behind(*state, byte);
        Ok(ReaderStep {
            to,
            emit: Emit::Nothing,
        })
    }

    fn last(&self, state: &u64) -> Emit {
        self.told(*state)
    }
}

impl RunReader for Outside {
    fn last_alike(&self, state: &u64, byte: u8) -> u8 {
        match self.run(*state, byte) {
            Some(run) => run.last,
            None => byte,
        }
    }
}
