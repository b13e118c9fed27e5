//! The words of a call with the options of its file.

ghost use Rattle.std.specs.Prelude.{◌≡◌, ◌≢◌, Err, IfErr, OnOk, map, string_bytes};
ghost use Rattle.io_edge.specs.Told.{Stays};
ghost use Rattle.call_options.specs.Reading.{HasOptions, IsFault, file_name, look_of};
ghost use Rattle.call_options.specs.Reading as spec;
ghost use Rattle.call_options.specs.declared.refusal.OptionsFault.TheVariants.{File};

use crate::putting::put_options;
use crate::reading::read_options;
use crate::refusal::OptionsFault;
use crate::taking::takes;
use command_words::has_help;
use io_edge::{FileFault, FileKind, Files};
use std::alloc::Global;

/// The name of the file of options, which is looked for in the folder of the call.
pub const OPTIONS_FILE: &str = "phpsa.toml";

/// Whether the command of this word takes an option that the file may give.
fn takes_some(word: &str) -> bool
    ensures { result ≡ spec.takes_some word.now }
{
    takes(word, "dtd") || takes(word, "limit") || takes(word, "root") || takes(word, "stubs")
}

/// Whether the words ask for the file of options.
fn ask_for_options(words: &[String]) -> bool
    ensures { result ≡ spec.ask_for_options (map string_bytes words.now) }
{
    match words {
        [] => false,
        [command, ..] => takes_some(command.as_str()) && !has_help(words),
    }
}

/// Puts the options of the file of options into the words of a call, where their command takes them
/// and they do not say them themselves. The file is asked for once, and only where the command takes
/// an option that it may give, and no word ahead of `--` asks for help; where it is not asked for, or
/// there is none, the words stay.
///
/// # Errors
///
/// `File` where the file is there and is not read, `Text` where it gives no options, also for want
/// of memory.
pub fn options_for<F: Files>(
    alloc: Global,
    words: &mut Vec<String>,
    files: &mut F,
) -> Result<(), OptionsFault>
    ensures ok { OnOk result (HasOptions
        (look_of (F.content files.new file_name) (F.faults files.old) (F.faults files.new)
        (F.misses files.old) (F.misses files.new) (F.reads files.old) (F.reads files.new))
        (map string_bytes words.old.items) (map string_bytes words.new.items)) }
    ensures err { IfErr result (IsFault
        (look_of (F.content files.new file_name) (F.faults files.old) (F.faults files.new)
        (F.misses files.old) (F.misses files.new) (F.reads files.old) (F.reads files.new))
        (map string_bytes words.old.items)) }
    ensures stays { Stays (F.content files.old) (F.content files.new) }
    ensures unfailed { result ≢ Err (File FileFault.Failed) → F.faults files.new ≡ F.faults files.old }
{
    if !ask_for_options(words.as_slice()) {
        return Ok(());
    }
    let file = match files.read(alloc, OPTIONS_FILE, FileKind::Regular) {
        Ok(file) => file,
        Err(FileFault::Missing) => return Ok(()),
        Err(fault) => return Err(OptionsFault::File(fault)),
    };
    match read_options(alloc, file.as_slice()) {
        Ok(settings) => {
            put_options(alloc, words, settings.as_slice())?;
            Ok(())
        }
        Err(refusal) => Err(OptionsFault::Text(refusal)),
    }
}
