//! The words that ask for `check` of files.

ghost use Rattle.std.specs.Prelude.{◌≡◌, ◌++◌, ◌∷◌, [], IfOk, OnOk, if◌then◌else◌, map, option_map, string_bytes};
ghost use Rattle.several_files.specs.Words as spec;
ghost use Rattle.several_files.specs.Views.{checks_as, file_as};

use crate::checks::{AskedFile, Checks};
use command_words::{ends_options, has_help};
use std::alloc::Global;
use text_base::NoMemory;

/// Where a word stands: where options and names may stand, behind an option whose value it is, or
/// behind `--`.
#[derive(Clone, Copy, Debug, PartialEq, Eq)]
pub(crate) enum Place {
    Free,
    Value,
    Names,
}

/// Whether the word begins with `-`, and is not `-` alone.
fn is_option(word: &str) -> bool
    ensures { result ≡ spec.is_option word.now }
{
    match word.as_bytes() {
        [] => false,
        [_] => false,
        [first, _, ..] => *first == b'-',
    }
}

/// Whether the value of the option is the next word.
fn takes_next(word: &str) -> bool
    ensures { result ≡ spec.takes_next word.now }
{
    word == "--dtd" || word == "--limit" || word == "--root" || word == "--stubs"
}

/// Where the next word stands.
fn place_behind(place: Place, word: &str) -> Place
    ensures { result ≡ spec.place_behind place word.now }
{
    match place {
        Place::Names => Place::Names,
        Place::Value => Place::Free,
        Place::Free => {
            if ends_options(word) {
                Place::Names
            } else if takes_next(word) {
                Place::Value
            } else {
                Place::Free
            }
        }
    }
}

/// Whether the word is an option there, or the value of one.
fn is_option_at(place: Place, word: &str) -> bool
    ensures { result ≡ spec.is_option_at place word.now }
{
    match place {
        Place::Names => false,
        Place::Value => true,
        Place::Free => is_option(word) && !ends_options(word),
    }
}

/// Whether the word is a name there.
fn is_name_at(place: Place, word: &str) -> bool
    ensures { result ≡ spec.is_name_at place word.now }
{
    match place {
        Place::Names => true,
        Place::Value => false,
        Place::Free => !is_option(word),
    }
}

/// Puts a word behind others.
pub(crate) fn add_word(alloc: Global, words: &mut Vec<String>, word: &str) -> Result<(), NoMemory>
    ensures { OnOk result (map string_bytes words.new.items
        ≡ map string_bytes words.old.items ++ word.now ∷ []) }
{
    let word = String::from_str(alloc, word)?;
    words.push(word)?;
    Ok(())
}

/// Puts words behind others.
pub(crate) fn add_words(
    alloc: Global,
    words: &mut Vec<String>,
    more: &[String],
) -> Result<(), NoMemory>
    ensures { OnOk result (map string_bytes words.new.items
        ≡ map string_bytes words.old.items ++ map string_bytes more.now) }
{
    let mut rest = more;
    while let Some((word, others)) = rest.split_first() {
        add_word(alloc, words, word.as_str())?;
        rest = others;
    }
    Ok(())
}

/// Puts the word behind the others where it is one of them.
fn add_option(
    alloc: Global,
    options: &mut Vec<String>,
    word: &str,
    is_one: bool,
) -> Result<(), NoMemory>
    ensures { OnOk result (map string_bytes options.new.items
        ≡ map string_bytes options.old.items ++ (if is_one then word.now ∷ [] else [])) }
{
    if is_one {
        return add_word(alloc, options, word);
    }
    Ok(())
}

/// Puts the name behind the others where it is one of them.
fn add_file(
    alloc: Global,
    files: &mut Vec<AskedFile>,
    word: &str,
    is_one: bool,
) -> Result<(), NoMemory>
    ensures { OnOk result (map file_as files.new.items
        ≡ map file_as files.old.items ++ map spec.given (if is_one then word.now ∷ [] else [])) }
{
    if is_one {
        let name = String::from_str(alloc, word)?;
        files.push(AskedFile {
            name,
            is_found: false,
        })?;
    }
    Ok(())
}

/// What the words behind `check` ask for.
fn checks_in(alloc: Global, words: &[String]) -> Result<Checks, NoMemory>
    ensures { IfOk result
        (λ checks. checks_as checks ≡ spec.checks_in (map string_bytes words.now)) }
{
    let mut options = Vec::new(alloc);
    let mut files = Vec::new(alloc);
    let mut place = Place::Free;
    let mut rest = words;
    while let Some((word, others)) = rest.split_first() {
        let word = word.as_str();
        add_option(alloc, &mut options, word, is_option_at(place, word))?;
        add_file(alloc, &mut files, word, is_name_at(place, word))?;
        place = place_behind(place, word);
        rest = others;
    }
    Ok(Checks { options, files })
}

/// What is asked of `check`: its options with their values, and its names. Nothing, where the words
/// ask for something else, as for help.
pub fn asked_checks(alloc: Global, words: &[String]) -> Result<Option<Checks>, NoMemory>
    ensures { IfOk result (λ checks. option_map checks_as checks
        ≡ spec.asked_checks (map string_bytes words.now)) }
{
    let Some((first, rest)) = words.split_first() else {
        return Ok(None);
    };
    if first.as_str() != "check" {
        return Ok(None);
    }
    if has_help(words) {
        return Ok(None);
    }
    let checks = checks_in(alloc, rest)?;
    Ok(Some(checks))
}
