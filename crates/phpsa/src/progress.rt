//! A line on the error stream that says where a long call is, where that stream is a terminal.

use io_edge::{FileFault, FileKind, Files, Sink, SinkFault, StdSink};
use phpsa_texts::shown_name;
use std::alloc::Global;
use std::cell::Cell;
use std::io::IsTerminal;
use std::time::{Duration, Instant};
use text_base::{Bytes, NoMemory, front};

/// So many seconds a call goes on before it says where it is.
const WAIT_SECONDS: u64 = 2;

/// At most so many bytes of a name stand in the line, so that it stays one.
const NAME_WIDTH: usize = 60;

/// Back to the first column, and all behind it is wiped (ECMA-48, 8.3.15 and 8.3.41).
const WIPE: &[u8] = b"\r\x1b[K";

/// The line: since when the call goes on, where the error stream is a terminal, and whether the line
/// stands there.
#[derive(Drop)]
pub(crate) struct Progress<'a> {
    rt: &'a HostRuntime,
    start: Option<Instant>,
    is_shown: Cell<bool>,
}

impl<'a> Progress<'a> {
    /// No line yet.
    pub(crate) fn new(rt: &'a HostRuntime) -> Progress<'a> {
        let start = if rt.stderr().is_terminal() {
            Instant::now(rt).ok()
        } else {
            None
        };
        Progress {
            rt,
            start,
            is_shown: Cell::new(false),
        }
    }

    /// Whether the call has gone on for long.
    fn is_late(&self) -> bool {
        let Some(start) = self.start else {
            return false;
        };
        match start.elapsed(self.rt) {
            Ok(time) => time >= Duration::from_secs(WAIT_SECONDS),
            Err(_) => false,
        }
    }

    fn write(&self, bytes: &[u8]) {
        let mut err = StdSink::new(self.rt, self.rt.stderr());
        let _ = err.put(bytes);
    }

    /// The line of a file.
    fn line_of(&self, name: &str) -> Result<Bytes, NoMemory> {
        let alloc = self.rt.alloc();
        let shown = shown_name(alloc, name.as_bytes())?;
        let mut line = Bytes::from_slice(alloc, WIPE)?;
        line.append(b"phpsa: works, last read ")?;
        line.append(front(shown.as_slice(), NAME_WIDTH))?;
        Ok(line)
    }

    /// Says that a file of this name was asked for.
    fn show(&self, name: &str) {
        if !self.is_late() {
            return;
        }
        if let Ok(line) = self.line_of(name) {
            self.is_shown.set(true);
            self.write(line.as_slice());
        }
    }

    /// Takes the line away.
    pub(crate) fn wipe(&self) {
        if self.is_shown.get() {
            self.is_shown.set(false);
            self.write(WIPE);
        }
    }
}

/// Files of another source, of which the line tells the last that was asked for.
#[derive(Drop)]
pub(crate) struct ToldFiles<'a, F> {
    pub(crate) inner: F,
    pub(crate) progress: &'a Progress<'a>,
}

impl<F: Files> Files for ToldFiles<'_, F> {
    ghost content = { λ f. F.content f.inner };

    ghost faults = { λ f. F.faults f.inner };

    ghost misses = { λ f. F.misses f.inner };

    ghost reads = { λ f. F.reads f.inner };

    fn read(&mut self, alloc: Global, name: &str, kind: FileKind) -> Result<Bytes, FileFault> {
        self.progress.show(name);
        self.inner.read(alloc, name, kind)
    }
}

/// Another sink, before whose bytes the line is taken away.
#[derive(Drop)]
pub(crate) struct ClearSink<'a, S> {
    pub(crate) inner: S,
    pub(crate) progress: &'a Progress<'a>,
}

impl<S: Sink> Sink for ClearSink<'_, S> {
    ghost written = { λ s. S.written s.inner };

    ghost faults = { λ s. S.faults s.inner };

    fn put(&mut self, bytes: &[u8]) -> Result<(), SinkFault> {
        self.progress.wipe();
        self.inner.put(bytes)
    }
}
