// A sink over a writer of std.
ghost use Rattle.std.specs.Prelude.{◌≡◌, ◌<◌, ◌≤◌, length, take, None, IfSome};
ghost use Rattle.std.specs.Io.KnownBytes.{Appends, Keeps};
ghost use Rattle.io_edge.specs.Stream.{sink_writer};

use crate::{Sink, SinkFault};
use std::io::{ErrorKind, Write};
use std::thread;
use std::time::{Clock, Duration};

/// For so many milliseconds a writer that is not ready is left alone before it is tried again.
const WAIT_MILLIS: u64 = 10;

/// How often in a row it is waited for: a minute in all.
const MOST_WAITS: u32 = 6_000;

/// A sink that hands all it is given to a writer. What is written is what the writer tells of its
/// bytes. By its clock it waits for a writer that is not ready.
#[derive(Drop)]
pub struct StdSink<C: Clock, W: Write> {
    clock: C,
    writer: W,
    faults: u64,
}

impl<C: Clock, W: Write> StdSink<C, W> {
    /// A sink over this writer.
    pub fn new(clock: C, writer: W) -> StdSink<C, W>
        ensures { sink_writer result ≡ writer }
    {
        StdSink {
            clock,
            writer,
            faults: 0,
        }
    }

    /// Writes some of the bytes, and says how many; none where the writer fails or takes nothing. A
    /// write that is interrupted is tried again at once, and one for which the writer is not ready
    /// (`WouldBlock`) behind a wait, up to a minute of them.
    fn write_some(&mut self, bytes: &[u8]) -> Option<usize>
        ensures some { IfSome result (λ n. 0 < n × n ≤ length bytes.now
            × Appends (W.contents self.old.writer) (W.contents self.new.writer)
            (take n bytes.now)) }
        ensures none { result ≡ None
            → Keeps (W.contents self.old.writer) (W.contents self.new.writer) }
        ensures faults { self.new.faults ≡ self.old.faults }
    {
        let mut waits = 0;
        for _ in 0..u64::MAX {
            match self.writer.write(bytes) {
                Ok(0) => return None,
                Ok(n) => return Some(n),
                Err(e) => match e.kind() {
                    ErrorKind::Interrupted => {}
                    ErrorKind::WouldBlock if waits < MOST_WAITS => {
                        waits += 1;
                        thread::sleep(&self.clock, Duration::from_millis(WAIT_MILLIS));
                    }
                    _ => return None,
                },
            }
        }
        None
    }
}

impl<C: Clock, W: Write> Sink for StdSink<C, W> {
    ghost written = { λ s. W.contents (sink_writer s) };

    ghost faults = { λ s. s.faults };

    /// Where the writer takes none of what is left, that is a fault.
    fn put(&mut self, bytes: &[u8]) -> Result<(), SinkFault> {
        let mut at = 0;
        while at < bytes.len() {
            match self.write_some(&bytes[at..]) {
                Some(n) => at += n,
                None => {
                    self.faults = self.faults.saturating_add(1);
                    return Err(SinkFault::Failed);
                }
            }
        }
        Ok(())
    }
}

#[cfg(test)]
mod tests {
    use super::*;
    use std::cell::Cell;
    use std::fs::File;
    use std::test::Fail;
    use std::{env, fs, io};

    /// A clock that counts the milliseconds for which it is asked to wait, and waits for none.
    #[derive(Drop)]
    struct WaitCount {
        millis: Cell<u128>,
    }

    impl Clock for WaitCount {
        fn monotonic(&self) -> io::Result<Duration> {
            Err(io::Error::from(ErrorKind::Unsupported))
        }

        fn since_1970(&self) -> io::Result<Duration> {
            Err(io::Error::from(ErrorKind::Unsupported))
        }

        fn sleep(&self, duration: Duration) {
            let millis = self.millis.get().saturating_add(duration.as_millis());
            self.millis.set(millis);
        }
    }

    /// Takes three bytes at a time, is interrupted once, is so often not ready behind that, and
    /// takes no more than `room`: then it fails or takes nothing.
    #[derive(Drop)]
    struct SlowWriter {
        taken: usize,
        room: usize,
        is_interrupted: bool,
        unready: u128,
        fails: bool,
    }

    impl Write for SlowWriter {
        fn write(&mut self, buf: &[u8]) -> io::Result<usize> {
            if !self.is_interrupted {
                self.is_interrupted = true;
                return Err(io::Error::from(ErrorKind::Interrupted));
            }
            if self.unready > 0 {
                self.unready -= 1;
                return Err(io::Error::from(ErrorKind::WouldBlock));
            }
            let left = self.room.saturating_sub(self.taken);
            if left == 0 && self.fails {
                return Err(io::Error::from(ErrorKind::Other));
            }
            let n = left.min(buf.len()).min(3);
            self.taken = self.taken.saturating_add(n);
            Ok(n)
        }

        fn flush(&mut self) -> io::Result<()> {
            Ok(())
        }
    }

    #[test]
    fn a_short_write_goes_on(rt: HostRuntime) {
        let failed = Err(SinkFault::Failed);
        for (room, unready, fails, wanted, taken, millis) in [
            (8, 0, true, Ok(()), 8, 0),
            (7, 0, true, failed, 7, 0),
            (7, 0, false, failed, 7, 0),
            (0, 0, false, failed, 0, 0),
            (8, 3, true, Ok(()), 8, 30),
            (7, 3, false, failed, 7, 30),
            (8, 6_000, true, Ok(()), 8, 60_000),
            (8, 6_001, true, failed, 0, 60_000),
        ] {
            let clock = WaitCount {
                millis: Cell::new(0),
            };
            let writer = SlowWriter {
                taken: 0,
                room,
                is_interrupted: false,
                unready,
                fails,
            };
            let mut sink = StdSink::new(&clock, writer);
            let answer = sink.put(b"abcdefgh");
            assert_eq!(rt; answer, wanted, "room {room}, unready {unready}");
            assert_eq!(rt; sink.writer.taken, taken, "room {room}, unready {unready}");
            assert_eq!(rt;
                clock.millis.get(),
                millis,
                "room {room}, unready {unready}"
            );
            let faults = if wanted.is_err() { 1 } else { 0 };
            assert_eq!(rt; sink.faults, faults, "room {room}, unready {unready}");
        }
    }

    #[test]
    fn writes_a_real_stream(rt: HostRuntime) -> Result<(), Fail> {
        let path = env::temp_dir(&rt)?.join(rt.alloc(), "io_edge_writes_a_real_stream")?;
        let mut sink = StdSink::new(&rt, File::create(&rt, path.as_str())?);
        sink.put(b"<html>")?;
        sink.put(b"")?;
        sink.put(b"</html>")?;
        drop(sink);
        let text = fs::read_to_string(&rt, path.as_str())?;
        fs::remove_file(&rt, path.as_str())?;
        assert_eq!(rt; text.as_str(), "<html></html>");
        Ok(())
    }
}
