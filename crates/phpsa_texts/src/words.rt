//! Of words: help, the version, and words that ask for nothing.

ghost use Rattle.std.specs.Prelude.{◌≡◌, IfOk, option_map};
ghost use Rattle.phpsa_texts.specs.Texts.{IsTold, Says, help_text, reason_text, usage_text, version_text, words_text};
ghost use Rattle.phpsa_texts.specs.declared.exit.Exit.TheVariants.{Done, Usage, Words};

use crate::exit::Exit;
use crate::lines::number_text;
use crate::message::{Message, Refusal};
use crate::shown::shown_name;
use crate::telling::told;
use std::alloc::Global;
use text_base::{Bytes, NoMemory};

/// What the commands and their options are.
pub const HELP: &[u8] = b"phpsa says whether all pages that a PHP script can print are valid XHTML.

  phpsa check FILE..  Decides a script: yes, no with a bad page, or undecided;
                      or each script of several files and folders.
  phpsa run FILE      Runs a script for a request, and writes what it prints.
  phpsa page FILE     Says whether one page is valid.
  phpsa grammar FILE  Writes the grammar of the pages of a script.
  phpsa make N        Writes a test script of N functions; --check decides it.
  phpsa match FILE    Says whether each page of a script fits a pattern.
  phpsa site FILE     Decides each script of a list, a line of JSON for each.

  --dtd TYPE          check, page, site: strict (if left out), mini or a file.
  --limit N           check, site: gives up at over N sums, 10000 if left out.
  --nesting           check, site: asks only that the tags of a page match.
  --json, --shortest  check: answers as JSON; shows a bad page of fewest bytes.
  --root FOLDER       all but make: what is included lies in it or below it.
  --stubs FILE        all but page, make: a script of functions that PHP has.
  --request FILE      run: the request, as JSON; an empty one if left out.
  --policy FILE       match: the pattern that each page is to fit as a whole.
  --steps N           run: stops after N steps, 10000000 if left out.
  --help, --version   Writes this, or the version.

Options stand in any order; dtd, limit, root and stubs may also stand in a file
phpsa.toml in the folder of the call. FILE may be -, the standard input.
Example:  phpsa check guests.php --dtd strict
";

/// A line for each command.
const USAGE_LINES: &[u8] =
    b"phpsa check FILE.. [--dtd D] [--limit N] [--nesting] [--json] [--shortest] [--root FOLDER] [--stubs FILE]
phpsa run FILE [--request FILE] [--steps N] [--root FOLDER] [--stubs FILE]
phpsa page FILE [--dtd D] [--root FOLDER]
phpsa grammar FILE [--root FOLDER] [--stubs FILE]
phpsa make N [--check]
phpsa match FILE --policy FILE [--root FOLDER] [--stubs FILE]
phpsa site FILE [--dtd D] [--limit N] [--nesting] [--root FOLDER] [--stubs FILE]
phpsa --help
phpsa --version
";

/// What the commands and their options are.
#[tactic(auto, unfolding(crate::specs::Texts::help_text))]
pub fn help_message(alloc: Global) -> Result<Message, NoMemory>
    ensures { IfOk result (λ message. Says message Done help_text) }
{
    let text = Bytes::from_slice(alloc, HELP)?;
    Ok(Message {
        status: Exit::Done,
        text,
    })
}

/// The version of the program.
pub fn version_message(alloc: Global) -> Result<Message, NoMemory>
    ensures { IfOk result (λ message. Says message Done version_text) }
{
    let text = Bytes::from_slice(alloc, b"phpsa 0.1.0\n")?;
    Ok(Message {
        status: Exit::Done,
        text,
    })
}

/// What is wrong with the words.
fn reason_text(alloc: Global, reason: Option<&[u8]>) -> Result<Bytes, NoMemory>
    ensures { IfOk result
        (λ text. text ≡ reason_text (option_map (λ line. line.now) reason.entry)) }
{
    let mut text = match reason {
        None => {
            let what =
                b"a number is one to eight decimal digits that are not all 0; match wants --policy FILE";
            Bytes::from_slice(alloc, what)?
        }
        Some(line) => shown_name(alloc, line)?,
    };
    text.push(b'\n')?;
    Ok(text)
}

fn usage_text(alloc: Global, reason: Option<&[u8]>) -> Result<Bytes, NoMemory>
    ensures { IfOk result
        (λ text. text ≡ usage_text (option_map (λ line. line.now) reason.entry)) }
{
    let why = reason_text(alloc, reason)?;
    let mut text = Bytes::from_slice(alloc, b"phpsa: Usage\n")?;
    text.append(why.as_slice())?;
    text.append(USAGE_LINES)?;
    Ok(text)
}

/// That words ask for nothing, with a line that says why, or none where a number is none or `match`
/// has no pattern; and what they may ask for.
pub fn usage_refusal(alloc: Global, reason: Option<&[u8]>) -> Refusal
    ensures { IsTold result Usage (usage_text (option_map (λ line. line.now) reason.entry)) }
{
    told(Exit::Usage, usage_text(alloc, reason))
}

/// That the word of this place, from 1, is not UTF-8.
pub fn words_refusal(alloc: Global, place: u64) -> Refusal
    ensures { IsTold result Words (words_text place) }
{
    told(Exit::Words, number_text(alloc, b"Words", place))
}
