//! The commands and their arguments, built for `clap`.

ghost use Rattle.std.specs.Prelude.{◌≡◌, ◌≢◌, [], IfOk, IfErr, false, true, fold, map, string_bytes};
ghost use Rattle.clap.specs.Words.{FailsBy, HasMatchesOf, app_of, fault_of, kind_of, rule_of, subcommand_of, subcommand_rows_of, takes, with_rule, with_subcommand};
ghost use Rattle.command_words.specs.declared.refusal.WordsRefusal.TheVariants.{Memory};
ghost use Rattle.command_words.specs.Asked.{AreTaken};
ghost use Rattle.command_words.specs.Program as spec;
ghost use Rattle.command_words.specs.Program.{row_of};
ghost use Rattle.command_words.specs.RowViews.{row_as, texts};

use crate::refusal::WordsRefusal;
use clap::error::ErrorKind;
use clap::{Arg, ArgAction, ArgMatches, Command, Error};
use std::alloc::{AllocError, Global};

/// A command: its word, the name of its one argument without a name, its options and its flags.
#[derive(Clone, Copy)]
pub(crate) struct Row<'a, 'r> {
    word: &'a str,
    place: &'a str,
    options: &'r [&'a str],
    flags: &'r [&'a str],
}

fn row_with<'a, 'r>(
    word: &'a str,
    place: &'a str,
    options: &'r [&'a str],
    flags: &'r [&'a str],
) -> Row<'a, 'r>
    ensures { row_as result ≡ row_of word.entry.now place.entry.now (texts options.entry.now)
        (texts flags.entry.now) }
{
    Row {
        word,
        place,
        options,
        flags,
    }
}

fn place<'a>(alloc: Global, name: &'a str) -> Arg<'a>
    ensures rule { rule_of result ≡ spec.place name.entry.now }
    ensures local { result.global ≡ false }
{
    Arg::new(alloc, name).required(true).action(ArgAction::Set)
}

fn named<'a>(alloc: Global, name: &'a str, action: ArgAction) -> Arg<'a>
    ensures rule { rule_of result ≡ spec.named action name.entry.now }
    ensures local { result.global ≡ false }
{
    Arg::new(alloc, name).long(name).action(action)
}

/// The command with arguments of these names more.
fn with_named<'a>(
    alloc: Global,
    command: Command<'a>,
    action: ArgAction,
    names: &[&'a str],
) -> Result<Command<'a>, AllocError>
    ensures app { IfOk result
        (λ c. app_of c
        ≡ fold with_rule (app_of command.entry) (map (spec.named action) (texts names.now))) }
{
    let mut command = command;
    for name in names {
        command = command.arg(named(alloc, name, action))?;
    }
    Ok(command)
}

/// A command by its word, its place, its options and its flags.
fn command<'a>(alloc: Global, row: Row<'a, '_>) -> Result<Command<'a>, AllocError>
    ensures app { IfOk result (λ c. app_of c ≡ spec.command (row_as row.entry)) }
{
    let bare = Command::new(alloc, row.word).arg(place(alloc, row.place))?;
    let some = with_named(alloc, bare, ArgAction::Set, row.options)?;
    with_named(alloc, some, ArgAction::SetTrue, row.flags)
}

/// The program with one command more.
fn with_command<'a>(
    alloc: Global,
    program: Command<'a>,
    row: Row<'a, '_>,
) -> Result<Command<'a>, AllocError>
    ensures app { IfOk result
        (λ c. app_of c ≡ with_subcommand (app_of program.entry) (spec.command (row_as row.entry)).top) }
{
    let command = command(alloc, row)?;
    program.subcommand(command)
}

/// The program before its commands are added.
fn bare_program<'a>(alloc: Global) -> Command<'a>
    ensures { app_of result ≡ spec.base }
{
    Command::new(alloc, "phpsa")
        .no_binary_name(true)
        .disable_help_flag(true)
        .disable_help_subcommand(true)
        .disable_version_flag(true)
        .subcommand_required(true)
}

/// The program with its commands.
fn program<'a>(alloc: Global) -> Result<Command<'a>, AllocError>
    ensures app { IfOk result (λ c. app_of c ≡ spec.phpsa) }
{
    let check = row_with(
        "check",
        "FILE",
        &["dtd", "limit", "root", "stubs"],
        &["nesting", "json", "shortest"],
    );
    let run = row_with("run", "FILE", &["request", "steps", "root", "stubs"], &[]);
    let page = row_with("page", "FILE", &["dtd", "root"], &[]);
    let grammar = row_with("grammar", "FILE", &["root", "stubs"], &[]);
    let make = row_with("make", "N", &[], &["check"]);
    let site = row_with(
        "site",
        "FILE",
        &["dtd", "limit", "root", "stubs"],
        &["nesting"],
    );
    let match_pattern = row_with("match", "FILE", &["policy", "root", "stubs"], &[]);
    let program = with_command(alloc, bare_program(alloc), check)?;
    let program = with_command(alloc, program, run)?;
    let program = with_command(alloc, program, page)?;
    let program = with_command(alloc, program, grammar)?;
    let program = with_command(alloc, program, make)?;
    let program = with_command(alloc, program, site)?;
    with_command(alloc, program, match_pattern)
}

/// What `clap` makes of the words, or why it does not take them.
fn parsed<'a>(alloc: Global, words: &'a [String]) -> Result<ArgMatches<'a>, Error>
    ensures ok { IfOk result (HasMatchesOf spec.phpsa (map string_bytes words.entry.now)) }
    ensures err { IfErr result
        (λ error. takes spec.phpsa (map string_bytes words.entry.now) ≡ true → kind_of error
        ≡ ErrorKind.OutOfMemory) }
    ensures kinds { FailsBy (fault_of spec.phpsa (map string_bytes words.entry.now)) result }
{
    program(alloc)?.try_get_matches_from(words)
}

/// The first line of what `clap` says.
fn reason_of(alloc: Global, error: &Error) -> Result<String, AllocError> {
    let message = error.to_string(alloc)?;
    let text = message.as_str();
    let text = text.strip_prefix("error: ").unwrap_or(text);
    String::from_str(alloc, text.lines().next().unwrap_or(text))
}

fn refusal_of(alloc: Global, error: &Error) -> WordsRefusal
    ensures { result ≢ Memory → kind_of error.now ≢ ErrorKind.OutOfMemory }
{
    match error.kind() {
        ErrorKind::OutOfMemory => WordsRefusal::Memory,
        _ => match reason_of(alloc, error) {
            Ok(reason) => WordsRefusal::Usage {
                reason: Some(reason),
            },
            Err(AllocError) => WordsRefusal::Memory,
        },
    }
}

/// What `clap` makes of the words.
pub(crate) fn matches_of<'a>(
    alloc: Global,
    words: &'a [String],
) -> Result<ArgMatches<'a>, WordsRefusal>
    ensures rows { IfOk result
        (λ matches. subcommand_rows_of matches
        ≡ subcommand_of spec.phpsa (map string_bytes words.entry.now)) }
    ensures fault { IfOk result
        (λ matches. fault_of spec.phpsa (map string_bytes words.entry.now) ≡ []) }
    ensures usage { IfErr result
        (λ refusal. refusal ≢ Memory → AreTaken (map string_bytes words.entry.now) → ⊥) }
{
    match parsed(alloc, words) {
        Ok(matches) => Ok(matches),
        Err(error) => Err(refusal_of(alloc, &error)),
    }
}
