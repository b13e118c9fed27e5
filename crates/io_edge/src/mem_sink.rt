// A sink in memory.
ghost use Rattle.std.specs.Prelude.{◌≡◌, ◌≤◌, ◌<◌, ◌++◌, [], length, Some, OnOk, OnErr, IsErrOf, ◌≢◌, Err};
ghost use Rattle.std.specs.Io.KnownBytes.{Appends};
ghost use Rattle.io_edge.specs.Counts.{one_more, Rises};
ghost use Rattle.io_edge.specs.Taken.{AppendsPrefix};
ghost use Rattle.io_edge.specs.Room.{fitting};
ghost use Rattle.io_edge.specs.MemSink.{sink_bytes, sink_room, sink_faults};

use crate::{Sink, SinkFault};
use std::alloc::Global;

/// A sink that keeps what it takes, up to a number of bytes if one is given.
#[derive(Drop)]
pub struct MemSink {
    bytes: Vec<u8>,
    room: Option<u64>,
    faults: u64,
}

impl MemSink {
    /// An empty sink with room for so many bytes, or for all that comes.
    pub fn new(alloc: Global, room: Option<u64>) -> MemSink
        ensures bytes { sink_bytes result ≡ [] }
        ensures room { sink_room result ≡ room }
        ensures faults { sink_faults result ≡ 0 }
    {
        MemSink {
            bytes: Vec::new(alloc),
            room,
            faults: 0,
        }
    }

    /// All that was taken so far.
    pub fn written(&self) -> &[u8]
        ensures { result.now ≡ sink_bytes self.now }
    {
        &self.bytes
    }

    fn fitting<'a>(&self, bytes: &'a [u8]) -> &'a [u8]
        ensures { result.now
            ≡ fitting (sink_room self.now) (length (sink_bytes self.now)) bytes.now }
    {
        match self.room {
            None => bytes,
            Some(room) => {
                let left = (room as usize).saturating_sub(self.bytes.len());
                &bytes[..left.min(bytes.len())]
            }
        }
    }
}

impl Sink for MemSink {
    ghost written = { λ m. Some (sink_bytes m) };

    ghost faults = { λ m. sink_faults m };

    fn put(&mut self, bytes: &[u8]) -> Result<(), SinkFault>
        ensures ok { OnOk result
            (Appends (Some (sink_bytes self.old)) (Some (sink_bytes self.new)) bytes.now) }
        ensures err { OnErr result
            (AppendsPrefix (Some (sink_bytes self.old)) (Some (sink_bytes self.new)) bytes.now) }
        ensures failed { IsErrOf result SinkFault.Failed
            → Rises (sink_faults self.old) (sink_faults self.new) }
        ensures faults { sink_faults self.old ≤ sink_faults self.new }

        // Want of memory aside, all is taken exactly where it fits, and else what fits.
        ensures fits { OnOk result
            (fitting (sink_room self.old) (length (sink_bytes self.old)) bytes.now ≡ bytes.now) }
        ensures full { IsErrOf result SinkFault.Failed →
            length (fitting (sink_room self.old) (length (sink_bytes self.old)) bytes.now) < length
            bytes.now }
        ensures taken { result ≢ Err SinkFault.Memory → sink_bytes self.new ≡ sink_bytes self.old
            ++ fitting (sink_room self.old) (length (sink_bytes self.old)) bytes.now }
        ensures memory { IsErrOf result SinkFault.Memory → sink_bytes self.new
            ≡ sink_bytes self.old }
        ensures counted { IsErrOf result SinkFault.Failed → sink_faults self.new
            ≡ one_more (sink_faults self.old) }
        ensures unfailed { result ≢ Err SinkFault.Failed → sink_faults self.new
            ≡ sink_faults self.old }
        ensures room { sink_room self.new ≡ sink_room self.old }
    {
        let fitting = self.fitting(bytes);
        if self.bytes.extend_from_slice(fitting).is_err() {
            return Err(SinkFault::Memory);
        }
        if fitting.len() < bytes.len() {
            self.faults = self.faults.saturating_add(1);
            return Err(SinkFault::Failed);
        }
        Ok(())
    }
}

#[cfg(test)]
mod tests {
    use super::*;

    #[test]
    fn takes_what_fits(rt: HostRuntime) {
        for (room, first, second, written) in [
            (None, Ok(()), Ok(()), b"abcde".as_slice()),
            (Some(5), Ok(()), Ok(()), b"abcde"),
            (Some(4), Ok(()), Err(SinkFault::Failed), b"abcd"),
            (Some(0), Err(SinkFault::Failed), Err(SinkFault::Failed), b""),
        ] {
            let mut sink = MemSink::new(rt.alloc(), room);
            let by_reference = &mut sink;
            assert_eq!(rt; by_reference.put(b"abc"), first);
            assert_eq!(rt; sink.put(b"de"), second);
            assert_eq!(rt; sink.written(), written);
        }
    }
}
