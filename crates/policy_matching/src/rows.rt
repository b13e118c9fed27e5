//! States by numbers: whether a text may end in each, and the runs of bytes that lead on from it.

ghost use Rattle.std.specs.Prelude.{◌≡◌};
ghost use Rattle.policy_matching.specs.Rows as spec;

/// A run of bytes, from behind the run before it up to its last one, and the number of the state
/// that each of them leads to.
#[derive(Clone, Copy, Debug, PartialEq, Eq)]
pub struct Run {
    pub last: u8,
    pub to: u64,
}

/// A state.
#[derive(Debug, Drop)]
pub struct Row {
    /// Whether a text that ends in it matches.
    pub ends: bool,
    /// The runs of bytes, in order.
    pub runs: Vec<Run>,
}

/// The run that has the byte: the first that does not end before it.
pub(crate) fn run_of(runs: &[Run], byte: u8) -> Option<Run>
    ensures { result ≡ spec.run_of byte runs.now }
{
    for run in runs {
        if byte <= run.last {
            return Some(*run);
        }
    }
    None
}
