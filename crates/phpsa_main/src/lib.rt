//! The program over any files and outputs: it does what the words of the command line ask for, and
//! says so by texts and a status.
//! Promise: the one clause of `phpsa` is `Keeps` of phpsa_tasks: each status has its cause, what is
//! held is answered, a status 0 is right, what is due is written, reads and faults are counted.
//! Used by: check_rows, phpsa.
#![tactic(auto)]

ghost use Rattle.std.specs.Prelude.{map, string_bytes};
ghost use Rattle.program_files.specs.Source.{source_call};
ghost use Rattle.phpsa_tasks.specs.Call.{output_of, call_of};
ghost use Rattle.phpsa_tasks.specs.Endings.{Ends};
ghost use Rattle.phpsa_tasks.specs.Counted.{IsCounted};
ghost use Rattle.phpsa_tasks.specs.Keeps.{Keeps};

mod answers;
mod deciding;
mod doing;
mod grammars;
mod lists;
mod loading;
mod made;
mod making;
mod matching;
mod page;
mod report;
mod running;
mod script;
mod script_by;
mod shortest;
mod site_lines;

use crate::doing::result_of;
use crate::report::report;
use io_edge::{Files, Sink};
use phpsa_tasks::asked_task;
use phpsa_tasks::laws::{
    endings_are_answered, endings_are_sound, endings_are_written, words_ask_for_one_task,
};
use phpsa_texts::{Exit, Refusal};
pub use report::refuse;
use std::alloc::Global;
use text_base::NoMemory;

/// Does what the words after the program's name ask for, and gives the status that the program ends
/// with.
///
/// The words are a command, its file or number, and its options in any order: `check FILE`, `run
/// FILE`, `page FILE`, `grammar FILE`, `make N`, `match FILE` and `site FILE`; or they ask for help
/// or the version (`docs/command-line.md`). The file is read first, of a script with all that it
/// includes, each once, and then what the document type asks for, or the pattern, and last the
/// scripts of a list. A reply is written on `out`: of `check` it is `yes`, or `no`, the length of a
/// loose page that is not good, and its first 1,048,576 bytes, or `undecided` with the count that
/// was passed; of `run` what the script prints; of `page` `valid` or `invalid`; of `match` as of
/// `check`; of `grammar` the grammar of the loose pages; of `make` the script, or what `check` says
/// of it; of `site` a line of JSON for each script; of help and the version their text. Every other
/// ending is written on `err`, as `phpsa: KIND` with the name of the file or function that it is
/// about, where there is one, or with a line that says what is wrong with the words; of a run that
/// does not come to its end what it printed stands on `out`.
pub fn phpsa<F: Files, O: Sink, E: Sink>(
    alloc: Global,
    words: &Vec<String>,
    files: &mut F,
    out: &mut O,
    err: &mut E,
) -> Exit
    ensures { Keeps (call_of (map string_bytes words.now.items)
        (source_call (F.content files.new) (F.faults files.old) (F.faults files.new)
        (F.misses files.old) (F.misses files.new)
        (F.reads files.old) (F.reads files.new))
        (output_of (O.written out.old) (O.written out.new) (O.faults out.old) (O.faults out.new))
        (output_of (E.written err.old) (E.written err.new) (E.faults err.old) (E.faults err.new)))
        result }
{
    endings_are_answered();
    endings_are_sound();
    endings_are_written();
    run(alloc, words, files, out, err)
}

/// The same, with the clauses from which the others follow.
fn run<F: Files, O: Sink, E: Sink>(
    alloc: Global,
    words: &Vec<String>,
    files: &mut F,
    out: &mut O,
    err: &mut E,
) -> Exit
    ensures ends { Ends (call_of (map string_bytes words.now.items)
        (source_call (F.content files.new) (F.faults files.old) (F.faults files.new)
        (F.misses files.old) (F.misses files.new)
        (F.reads files.old) (F.reads files.new))
        (output_of (O.written out.old) (O.written out.new) (O.faults out.old) (O.faults out.new))
        (output_of (E.written err.old) (E.written err.new) (E.faults err.old) (E.faults err.new)))
        result }
    ensures counted { IsCounted (call_of (map string_bytes words.now.items)
        (source_call (F.content files.new) (F.faults files.old) (F.faults files.new)
        (F.misses files.old) (F.misses files.new)
        (F.reads files.old) (F.reads files.new))
        (output_of (O.written out.old) (O.written out.new) (O.faults out.old) (O.faults out.new))
        (output_of (E.written err.old) (E.written err.new) (E.faults err.old) (E.faults err.new)))
        result }
{
    words_ask_for_one_task();
    match asked_task(alloc, words) {
        Err(NoMemory) => refuse(&Refusal::Memory, err),
        Ok(task) => match result_of(alloc, task, files) {
            Ok(reply) => report(&reply, out, err),
            Err(refusal) => refuse(&refusal, err),
        },
    }
}
