//! The status of a call.

ghost use Rattle.std.specs.Prelude.{◌≡◌};
ghost use Rattle.phpsa_texts.specs.Statuses.{status_of};

use site_check::{FAULT_STATUS, MISSING_STATUS};

/// How a call ended: a variant for each status.
#[derive(Clone, Copy, Debug, PartialEq, Eq)]
pub enum Exit {
    /// 0: every loose page is good, or fits the pattern, or the page is valid, or the script or the
    /// grammar is written, or the run has come to its end.
    Done,
    /// 1: a loose page is not good, or does not fit the pattern, or the page is not valid.
    No,
    /// 2: a stated count was passed, and the script is not decided.
    Undecided,
    /// 3: a file is no script of the language, or too deep, or includes itself, or a rule on
    /// functions is broken.
    Script,
    /// 4: the run has met a fault.
    Fault,
    /// 5: the run had no unit left.
    Spent,
    /// 6: there is no file of this name, or none of a name that the script includes or the
    /// definition asks for.
    Missing,
    /// 7: the source of the files failed.
    ReadFault,
    /// 8: an output failed.
    WriteFault,
    /// 9: the words ask for nothing.
    Usage,
    /// 10: there is no document type definition, or it is over a limit.
    Dtd,
    /// 11: a file is over the limit of 1,048,576 bytes, the program is too large, a text in it is
    /// too long, a file holds no request or no list, or a script cannot have so many functions.
    Input,
    /// 12: no memory was left.
    Memory,
    /// 13: the run would have had 257 calls open at once.
    Deep,
    /// 14: the file of a pattern spells none, or is over a limit.
    Policy,
    /// 15: a script of a list is refused, and none of the others may print a page that is not good or
    /// is not decided.
    Site,
    /// 16: the system does not give the words as UTF-8.
    Words,
}

impl Exit {
    /// The status of the process.
    pub fn code(self) -> u8
        ensures { result ≡ status_of self }
    {
        match self {
            Exit::Done => 0,
            Exit::No => 1,
            Exit::Undecided => 2,
            Exit::Script => 3,
            Exit::Fault => 4,
            Exit::Spent => 5,
            Exit::Missing => MISSING_STATUS,
            Exit::ReadFault => FAULT_STATUS,
            Exit::WriteFault => 8,
            Exit::Usage => 9,
            Exit::Dtd => 10,
            Exit::Input => 11,
            Exit::Memory => 12,
            Exit::Deep => 13,
            Exit::Policy => 14,
            Exit::Site => 15,
            Exit::Words => 16,
        }
    }
}
