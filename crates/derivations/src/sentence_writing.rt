//! Writing what a walk stands for.

ghost use Rattle.std.specs.Prelude.{◌≡◌, ◌≢◌, ◌≤◌, ◌<◌, take, Err, OnOk, OnErr, IsErrOf, length, vec_capacity};
ghost use Rattle.std.specs.Io.KnownBytes.{Appends};
ghost use Rattle.io_edge.specs.Counts.{Rises};
ghost use Rattle.io_edge.specs.Taken.{AppendsPrefix};
ghost use Rattle.derivations.specs.Forks.{AreForks};
ghost use Rattle.derivations.specs.Stacked.{pending, AreStacked};
ghost use Rattle.derivations.specs.Walks.{sentence_in};

use crate::fork::{Fork, Piece};
use crate::walk::Walk;
use crate::walking::{fill, restart};
use io_edge::{Sink, SinkFault};

/// Writes the first bytes of what is on the stack.
fn put_first<S: Sink>(
    forks: &[Fork],
    stack: &mut Vec<Piece>,
    chunk: &mut Vec<u8>,
    most: u64,
    sink: &mut S,
) -> Result<(), SinkFault>
    requires lawful { AreForks forks.now }
    requires stacked { AreStacked (length forks.now) 0 stack.old.items }
    requires room { length forks.now < vec_capacity stack.old }
    requires wide { 4096 ≤ vec_capacity chunk.old }
    ensures ok { OnOk result
        (Appends (S.written sink.old) (S.written sink.new)
        (take most (pending forks.now stack.old.items))) }
    ensures err { OnErr result
        (AppendsPrefix (S.written sink.old) (S.written sink.new)
        (take most (pending forks.now stack.old.items))) }
    ensures failed { IsErrOf result SinkFault.Failed
        → Rises (S.faults sink.old) (S.faults sink.new) }
    ensures faults { S.faults sink.old ≤ S.faults sink.new }
    ensures unfailed { result ≢ Err SinkFault.Failed → S.faults sink.new ≡ S.faults sink.old }
    ensures room { length forks.now < vec_capacity stack.new }
    ensures wide { 4096 ≤ vec_capacity chunk.new }
{
    let mut left = most;
    'parts: while left > 0 {
        fill(forks, stack, left, chunk);
        if chunk.is_empty() {
            return Ok(());
        }
        sink.put(chunk.as_slice())?;
        left -= chunk.len() as u64;
    }
    Ok(())
}

/// Puts the first bytes of the sentence into the sink, at most so many. It begins at the first byte
/// each time. No memory is taken but what the sink takes, and the time is that of what is written
/// and of the forks above it.
///
/// # Errors
///
/// Those of the sink: `Failed` where it failed, and `Memory`. A prefix of the bytes may then be
/// written.
pub fn yield_into<S: Sink>(walk: &mut Walk, most: u64, sink: &mut S) -> Result<(), SinkFault>
    ensures ok { OnOk result
        (Appends (S.written sink.old) (S.written sink.new) (take most (sentence_in walk.old))) }
    ensures err { OnErr result
        (AppendsPrefix (S.written sink.old) (S.written sink.new) (take most (sentence_in walk.old))) }
    ensures failed { IsErrOf result SinkFault.Failed
        → Rises (S.faults sink.old) (S.faults sink.new) }
    ensures faults { S.faults sink.old ≤ S.faults sink.new }
    ensures unfailed { result ≢ Err SinkFault.Failed → S.faults sink.new ≡ S.faults sink.old }
    ensures same { sentence_in walk.new ≡ sentence_in walk.old }
{
    restart(walk.root, &mut walk.stack);
    put_first(
        walk.forks.as_slice(),
        &mut walk.stack,
        &mut walk.chunk,
        most,
        sink,
    )
}
