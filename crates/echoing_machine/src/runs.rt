//! What a reader is that tells runs of bytes.

ghost use Rattle.std.specs.Prelude.{◌≡◌, ◌≤◌};
ghost use Rattle.echoing_machine.specs.Runs.{AreAlike};
ghost use Rattle.echoing_machine.specs.Runs as spec;

use byte_readers::ByteReader;
use text_base::ByteRange;

/// A reader that tells up to which byte all do the same as a byte, so that it need not be asked for
/// each of them.
pub trait RunReader: ByteReader {
    /// The last of a run of bytes that begins with this one, all of which lead to one state and put
    /// out the same. It may be the byte itself, and need not be the last that does the same.
    fn last_alike(&self, state: &Self::State, byte: u8) -> u8
        ensures last { byte ≤ result }
        ensures alike { AreAlike (Self.next self.now state.now) (Self.puts self.now state.now) byte
            result };
}

/// A run that begins with the byte and goes no further than to the end, all of which do the same.
pub fn run_from<R: RunReader>(reader: &R, state: &R::State, byte: u8, end: u8) -> ByteRange
    requires { byte ≤ end }
    ensures begin { result.lo ≡ byte }
    ensures end { result.hi ≤ end }
    ensures alike { AreAlike (R.next reader.now state.now) (R.puts reader.now state.now) result.lo
        result.hi }
{
    let last = reader.last_alike(state, byte);
    ByteRange {
        lo: byte,
        hi: last.min(end),
    }
}

/// The last byte of the first run that has the byte, each run given by its first and its last byte;
/// the byte itself where none has it.
pub fn last_in(runs: &[(u8, u8)], byte: u8) -> u8
    ensures { result ≡ spec.last_in runs.now byte }
{
    for (first, last) in runs {
        if *first <= byte && byte <= *last {
            return *last;
        }
    }
    byte
}
