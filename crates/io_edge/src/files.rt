// Files by name.
ghost use Rattle.std.specs.Prelude.{◌≡◌, ◌≢◌, ◌≤◌, ℕ, length, Some, Err, IfOk, IfErr};
ghost use Rattle.io_edge.specs.Counts.{one_more};
ghost use Rattle.io_edge.specs.Told.{Content, Tells, Stays};
ghost use Rattle.io_edge.specs.Reasons.{HasReason};
ghost use Rattle.io_edge.specs.declared.files.FileFault.TheVariants.{Memory};

use std::alloc::Global;
use text_base::limits::FILE_LIMIT;
use text_base::{Bytes, NoMemory};
use thiserror::Error;

/// Why a file was not read.
#[derive(Clone, Copy, Debug, PartialEq, Eq, Error)]
pub enum FileFault {
    /// There is no such name.
    #[error("no such file")]
    Missing,
    /// The source failed.
    #[error("the file cannot be read")]
    Failed,
    /// The file has over `FILE_LIMIT` bytes: at least `len`.
    #[error("the file has {len} bytes or more")]
    TooLong { len: u64 },
    /// No memory was left.
    #[error("out of memory")]
    Memory,
}

impl From<NoMemory> for FileFault {
    ghost from_gives = { λ _ e. e ≡ Memory };

    fn from(_: NoMemory) -> Self {
        FileFault::Memory
    }
}

/// Which files are read: those that are no regular file may be read but where that is asked for.
#[derive(Clone, Copy, Debug, PartialEq, Eq)]
pub enum FileKind {
    /// A regular file, or a link to one. All else has failed, and is not opened.
    Regular,
    /// A file of any kind, as a pipe or a device.
    Any,
}

/// A source of files.
///
/// What a source tells of a name stays told. Its three counts never fall, and stay at the largest
/// `u64` once they reach it.
pub trait Files {
    /// What the source tells of each name.
    ghost content: { Self → Content };

    /// How often the source has failed.
    ghost faults: { Self → ℕ };

    /// How often it had no such name.
    ghost misses: { Self → ℕ };

    /// How often it was asked for a file.
    ghost reads: { Self → ℕ };

    /// The bytes of the file `name`, of which there are at most `FILE_LIMIT`.
    ///
    /// # Errors
    ///
    /// `Missing` where there is no such name, `Failed` where the source failed, or the file is none
    /// of the kind that is asked for, `TooLong` where there are more bytes, and `Memory`, of which
    /// no clause says when it comes.
    fn read(&mut self, alloc: Global, name: &str, kind: FileKind) -> Result<Bytes, FileFault>
        ensures content { IfOk result (λ bytes. Tells (content self.new name.now) (Some bytes)) }
        ensures limit { IfOk result (λ bytes. length bytes ≤ FILE_LIMIT) }
        ensures reason { IfErr result (λ fault. HasReason (content self.new name.now)
            (faults self.old) (faults self.new) (misses self.old) (misses self.new) fault) }

        // What is told stays told, and no count falls. A count stays where the answer is not its
        // own.
        ensures stays { Stays (content self.old) (content self.new) }
        ensures faults { faults self.old ≤ faults self.new }
        ensures misses { misses self.old ≤ misses self.new }
        ensures unfailed { result ≢ Err FileFault.Failed → faults self.new ≡ faults self.old }
        ensures unmissed { result ≢ Err FileFault.Missing → misses self.new ≡ misses self.old }

        // Each call asks once.
        ensures asked { reads self.new ≡ one_more (reads self.old) };
}

impl<F: Files> Files for &mut F {
    ghost content = { λ f name. F.content f.now name };

    ghost faults = { λ f. F.faults f.now };

    ghost misses = { λ f. F.misses f.now };

    ghost reads = { λ f. F.reads f.now };

    fn read(&mut self, alloc: Global, name: &str, kind: FileKind) -> Result<Bytes, FileFault> {
        Files::read(&mut **self, alloc, name, kind)
    }
}
