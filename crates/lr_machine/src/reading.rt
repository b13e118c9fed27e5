//! The whole of the machine.

ghost use Rattle.std.specs.Prelude.{◌≡◌, ◌<◌, ◌+◌, [], MatchResult};
ghost use Rattle.lr_tables.specs.Grammars.{IsOnly, IsFirstWrong};
ghost use Rattle.lr_tables.specs.Laws.{AreChecked};
ghost use Rattle.lr_tables.specs.Machine.{Read, run};
ghost use Rattle.lr_machine.specs.Shown.{shown};
ghost use Rattle.lr_machine.specs.Refusals.{IsRefused, StopsAt};

use crate::tables::Tables;
use crate::turns::{Reader, Turn, go_on};
use lr_tables::Event;
use std::alloc::Global;
use text_base::Stack;
use thiserror::Error;

/// How many turns the machine makes at most. Each turn tells an event, and no memory holds so many.
pub const TURNS: u64 = u64::MAX;

/// Why nothing is answered.
#[derive(Clone, Copy, Debug, PartialEq, Eq, Error)]
pub enum ReadError {
    /// There is no memory.
    #[error("out of memory")]
    NoMemory,
    /// The token of this number, from 0 on, does not fit; it is the count of the tokens where
    /// more are wanted.
    #[error("token {0} does not fit")]
    Wrong(usize),
}

/// What the machine comes to, whatever the tables are.
pub fn read<const T: usize, const N: usize>(
    alloc: Global,
    tables: &Tables<T, N>,
    kinds: &[u16],
) -> Result<Vec<Event>, ReadError>
    requires { T + N < 65536 }
    ensures { MatchResult result
        (λ events. run (shown tables.now) TURNS [] kinds.now ≡ Read events.items)
        (λ error. IsRefused error (StopsAt (run (shown tables.now) TURNS [] kinds.now) kinds.now)) }
{
    let mut reader = Reader {
        states: Stack::new(alloc),
        events: Vec::new(alloc),
    };
    let mut rest = kinds;
    for _turn in 0..TURNS {
        let Ok(turned) = go_on(tables, rest, &mut reader) else {
            return Err(ReadError::NoMemory);
        };
        match turned {
            Turn::On(later) => {
                rest = later;
            }
            Turn::Done => return Ok(reader.events),
            Turn::Stuck => return Err(ReadError::Wrong(kinds.len().saturating_sub(rest.len()))),
        }
    }
    Err(ReadError::NoMemory)
}

/// What is told of the only derivation of the tokens, or the place of the first one that no
/// sentence goes on with, where the tables pass their check.
pub fn parse<const T: usize, const N: usize>(
    alloc: Global,
    tables: &Tables<T, N>,
    kinds: &[u16],
) -> Result<Vec<Event>, ReadError>
    requires symbols { T + N < 65536 }
    requires checked { AreChecked (shown tables.now) }
    ensures { MatchResult result
        (λ events. IsOnly (shown tables.now).grammar kinds.now events.items)
        (λ error. IsRefused error (IsFirstWrong (shown tables.now).grammar kinds.now)) }
{
    read(alloc, tables, kinds)
}
