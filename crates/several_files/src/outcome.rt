//! What a call on a file says of it.

ghost use Rattle.std.specs.Prelude.{◌≡◌};
ghost use Rattle.several_files.specs.Lines as spec;

use phpsa_texts::Exit;

/// What a status of `check` says.
#[derive(Clone, Copy, Debug, PartialEq, Eq)]
pub enum Outcome {
    /// Each loose page is good.
    Yes,
    /// One is not.
    No,
    /// A stated count was passed.
    Undecided,
    /// The script is refused.
    Unread,
}

/// What the status says.
pub(crate) fn outcome_of(status: Exit) -> Outcome
    ensures { result ≡ spec.outcome_of status }
{
    match status {
        Exit::Done => Outcome::Yes,
        Exit::No => Outcome::No,
        Exit::Undecided => Outcome::Undecided,
        Exit::Script | Exit::Fault | Exit::Spent | Exit::Missing => Outcome::Unread,
        Exit::ReadFault | Exit::WriteFault | Exit::Usage | Exit::Dtd => Outcome::Unread,
        Exit::Input | Exit::Memory | Exit::Deep | Exit::Policy => Outcome::Unread,
        Exit::Site | Exit::Words => Outcome::Unread,
    }
}

/// Whether the program of the file is loaded.
pub(crate) fn is_decided(outcome: Outcome) -> bool
    ensures { result ≡ spec.is_decided outcome }
{
    match outcome {
        Outcome::Yes | Outcome::No | Outcome::Undecided => true,
        Outcome::Unread => false,
    }
}

/// Whether two outcomes are one.
pub(crate) fn same_outcome(one: Outcome, other: Outcome) -> bool
    ensures { result ≡ spec.same_outcome one other }
{
    match one {
        Outcome::Yes => matches!(other, Outcome::Yes),
        Outcome::No => matches!(other, Outcome::No),
        Outcome::Undecided => matches!(other, Outcome::Undecided),
        Outcome::Unread => matches!(other, Outcome::Unread),
    }
}

/// The word for an outcome, behind a number.
pub(crate) fn word_of(outcome: Outcome) -> &'static str
    ensures { result.now ≡ spec.word_of outcome }
{
    match outcome {
        Outcome::Yes => " yes",
        Outcome::No => " no",
        Outcome::Undecided => " undecided",
        Outcome::Unread => " not read",
    }
}
