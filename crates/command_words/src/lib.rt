//! The words of the command line, read with `clap`.
//! Promise: `read_words` gives only what the words ask for (`Asks` of specs/Asked, clause `ok`),
//! and `Usage` only where they ask for nothing (`AsksNothing`, clause `refused`).
//! Laws of `laws`: words in the forms of the documents (specs/Canonical) are taken, in any order.
//! Used by: call_options, phpsa_tasks, phpsa_main, several_files, base_tests.
#![tactic(auto)]

ghost use Rattle.std.specs.Prelude.{IfOk, IfErr, map, string_bytes};
ghost use Rattle.command_words.specs.Asked.{Asks};
ghost use Rattle.command_words.specs.Views.{asked_as, IsRefused};

mod builder;
mod command_line;
mod first;
pub mod laws;
mod numbers;
mod refusal;
mod values;

use crate::builder::matches_of;
use crate::first::asked_first;
use crate::values::line_by;
pub use command_line::CommandLine;
pub use first::{ends_options, has_help};
pub use refusal::WordsRefusal;
use std::alloc::Global;
pub use values::PAIR_LIMIT;

/// What the words after the program's name ask for.
///
/// `--help` and `-h` anywhere ahead of `--`, and `help` and `--version` as the first word, ask for
/// that, whatever else is wrong with the words. Else a command stands first, and after it its file
/// or number, once, and any of its options, each at most once, in any order; an option's value
/// stands after `=` or as the next word. `docs/command-line.md` lists them.
///
/// # Errors
///
/// `Usage` only where the words ask for nothing: `clap` does not take them, and says why, or a
/// number in them is not one to eight decimal digits that are not all 0; and `Memory`.
pub fn read_words<'a>(alloc: Global, words: &'a [String]) -> Result<CommandLine<'a>, WordsRefusal>
    ensures ok { IfOk result (λ line. Asks (map string_bytes words.entry.now) (asked_as line)) }
    ensures refused { IfErr result (IsRefused (map string_bytes words.entry.now)) }
{
    if let Some(line) = asked_first(words) {
        return Ok(line);
    }
    let matches = matches_of(alloc, words)?;
    let Some((name, found)) = matches.subcommand() else {
        return Err(WordsRefusal::Usage { reason: None });
    };
    match line_by(name, found) {
        None => Err(WordsRefusal::Usage { reason: None }),
        Some(line) => Ok(line),
    }
}
