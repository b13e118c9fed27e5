//! Up to which byte all do the same.

ghost use Rattle.std.specs.Prelude.{◌≡◌};
ghost use Rattle.way_reader.specs.Classes as classes;

use crate::reader::WayReader;
use crate::way::{Way, WayState};
use derivatives::Arena;
use echoing_machine::RunReader;
use partial_derivatives::last_in_turn;

/// The end of a class of bytes that leave the same of each of these ways.
fn last_of(arena: &Arena, byte: u8, ways: &[Way]) -> u8
    ensures { result ≡ classes.last_of arena.now byte ways.now }
{
    let mut last = u8::MAX;
    for way in ways {
        last = last.min(last_in_turn(arena, byte, way.parts.as_slice()));
    }
    last
}

impl<'w> RunReader for WayReader<'w> {
    fn last_alike(&self, state: &WayState, byte: u8) -> u8 {
        match state {
            WayState::Failed => u8::MAX,
            WayState::At(spot) => { last_of(&self.ways.arena, byte, self.ways.starts.at(*spot)) },
            WayState::Inside(ways) => last_of(&self.ways.arena, byte, ways.as_slice()),
        }
    }
}
