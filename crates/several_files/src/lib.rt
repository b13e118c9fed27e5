//! `check` of several files: a call of the program for each, and a report on them.
//! Promise: `answer` is the program for all words (`Answers` of specs/Endings): of more than one name it is `ChecksEach`, else `Keeps` of
//! phpsa_tasks, word for word as `phpsa` of phpsa_main has it. `check_each` is that for names that are given otherwise, as those of a folder.
//! Used by: check_rows, phpsa.
#![tactic(auto)]

ghost use Rattle.std.specs.Prelude.{map, string_bytes};
ghost use Rattle.phpsa_tasks.specs.Call.{output_of};
ghost use Rattle.several_files.specs.Endings.{Answers, moment_of};

mod answers;
mod call_files;
mod calls;
mod checks;
mod each;
mod lines;
mod listing;
mod outcome;
mod telling;
mod words;

use crate::telling::refuse;
pub use answers::FileAnswer;
pub use call_files::{CallFiles, LIST_NAME};
pub use checks::{AskedFile, Checks};
pub use each::check_each;
use io_edge::{Files, Sink};
pub use outcome::Outcome;
use phpsa_main::phpsa;
use phpsa_texts::{Exit, Refusal};
use std::alloc::Global;
use text_base::NoMemory;
pub use words::asked_checks;

/// Does what the words after the program's name ask for, as `phpsa` does, and gives the status that
/// the program ends with. Where `check` is asked for of more than one name, each is checked by a
/// call of its own, and a report is written, as `check_each` says.
pub fn answer<F: Files, O: Sink, E: Sink>(
    alloc: Global,
    words: &Vec<String>,
    files: &mut CallFiles<F>,
    out: &mut O,
    err: &mut E,
) -> Exit
    ensures { Answers (map string_bytes words.now.items)
        (moment_of F.content F.faults F.misses files.old)
        (moment_of F.content F.faults F.misses files.new)
        (output_of (O.written out.old) (O.written out.new) (O.faults out.old) (O.faults out.new))
        (output_of (E.written err.old) (E.written err.new) (E.faults err.old) (E.faults err.new))
        result }
{
    match asked_checks(alloc, words) {
        Err(NoMemory) => refuse(&Refusal::Memory, err),
        Ok(None) => phpsa(alloc, words, files, out, err),
        Ok(Some(checks)) => {
            let names = checks.files.as_slice();
            if names.len() > 1 {
                check_each(alloc, &checks, files, out, err)
            } else {
                phpsa(alloc, words, files, out, err)
            }
        }
    }
}
