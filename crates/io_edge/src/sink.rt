// Where bytes go.
ghost use Rattle.std.specs.Prelude.{◌≡◌, ◌≢◌, ◌≤◌, ℕ, List, Option, Err, OnOk, OnErr, IsErrOf};
ghost use Rattle.std.specs.Io.KnownBytes.{Appends};
ghost use Rattle.io_edge.specs.Counts.{Rises};
ghost use Rattle.io_edge.specs.Taken.{AppendsPrefix};

use thiserror::Error;

/// Why a sink did not take all bytes.
#[derive(Clone, Copy, Debug, PartialEq, Eq, Error)]
pub enum SinkFault {
    /// The sink failed.
    #[error("the output cannot be written")]
    Failed,
    /// No memory was left.
    #[error("out of memory")]
    Memory,
}

/// A sink of bytes. Its count of faults never falls, and stays at the largest `u64` once it reaches
/// it.
pub trait Sink {
    /// What was written so far, where that is told.
    ghost written: { Self → Option (List ℕ) };

    /// How often the sink has failed.
    ghost faults: { Self → ℕ };

    /// Writes all the bytes.
    ///
    /// # Errors
    ///
    /// `Failed` where the sink failed, and `Memory`, of which no clause says when it comes. A
    /// prefix of the bytes may then be written.
    fn put(&mut self, bytes: &[u8]) -> Result<(), SinkFault>
        ensures ok { OnOk result (Appends (written self.old) (written self.new) bytes.now) }
        ensures err { OnErr result (AppendsPrefix (written self.old) (written self.new) bytes.now) }
        ensures failed { IsErrOf result SinkFault.Failed
            → Rises (faults self.old) (faults self.new) }
        ensures faults { faults self.old ≤ faults self.new }

        // The count stays where the answer is not a fault.
        ensures unfailed { result ≢ Err SinkFault.Failed → faults self.new ≡ faults self.old };
}

impl<S: Sink> Sink for &mut S {
    ghost written = { λ s. S.written s.now };

    ghost faults = { λ s. S.faults s.now };

    fn put(&mut self, bytes: &[u8]) -> Result<(), SinkFault> {
        Sink::put(&mut **self, bytes)
    }
}
