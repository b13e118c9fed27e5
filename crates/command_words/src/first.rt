//! What is asked for before `clap` reads the words.

ghost use Rattle.std.specs.Prelude.{◌≡◌, map, option_map, string_bytes};
ghost use Rattle.command_words.specs.Asked as spec;
ghost use Rattle.command_words.specs.Views.{asked_as};

use crate::command_line::CommandLine;

/// Whether all words behind this one are names.
pub fn ends_options(word: &str) -> bool
    ensures { result ≡ spec.ends_options word.now }
{
    word == "--"
}

fn is_help(word: &str) -> bool
    ensures { result ≡ spec.is_help word.now }
{
    word == "--help" || word == "-h"
}

/// Whether a word ahead of `--` asks for help.
pub fn has_help(words: &[String]) -> bool
    ensures { result ≡ spec.has_help (map string_bytes words.now) }
{
    let mut rest = words;
    while let Some((word, others)) = rest.split_first() {
        let word = word.as_str();
        if ends_options(word) {
            return false;
        }
        if is_help(word) {
            return true;
        }
        rest = others;
    }
    false
}

/// Help, or the version, where the words ask for it.
pub(crate) fn asked_first<'a>(words: &'a [String]) -> Option<CommandLine<'a>>
    ensures { option_map asked_as result ≡ spec.asked_first (map string_bytes words.entry.now) }
{
    let Some((first, _)) = words.split_first() else {
        return None;
    };
    let first = first.as_str();
    if first == "help" || has_help(words) {
        return Some(CommandLine::Help);
    }
    if first == "--version" {
        return Some(CommandLine::Version);
    }
    None
}
