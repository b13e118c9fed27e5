//! The values of a command's arguments.

ghost use Rattle.std.specs.Prelude.{◌≡◌, option_map};
ghost use Rattle.clap.specs.Words.{found_of, rows_of};
ghost use Rattle.command_words.specs.Asked as spec;
ghost use Rattle.command_words.specs.Views.{asked_as};

use crate::command_line::CommandLine;
use crate::numbers::{number_of, number_or};
use clap::ArgMatches;

/// The most different sums of the sentences of one nonterminal for which a script is decided, where
/// nothing else is asked for.
pub const PAIR_LIMIT: u32 = 10_000;

/// The text of the argument of this name.
fn value<'a>(matches: &ArgMatches<'a>, name: &str) -> Option<&'a str>
    ensures { option_map (λ text. text.now) result
        ≡ spec.values_of (rows_of (found_of matches.now)) name.now }
{
    matches.get_str(name)
}

/// Whether the flag of this name is given.
fn is_given(matches: &ArgMatches<'_>, name: &str) -> bool
    ensures { result ≡ spec.is_given (spec.values_of (rows_of (found_of matches.now)) name.now) }
{
    match value(matches, name) {
        None => false,
        Some(text) => text == "true",
    }
}

fn definition_of<'a>(matches: &ArgMatches<'a>) -> &'a str
    ensures { result.now ≡ spec.definition_of (spec.values_of (rows_of (found_of matches.now))) }
{
    match value(matches, "dtd") {
        None => "strict",
        Some(name) => name,
    }
}

fn check_line<'a>(matches: &ArgMatches<'a>) -> Option<CommandLine<'a>>
    ensures { option_map asked_as result
        ≡ spec.asked_check (spec.values_of (rows_of (found_of matches.now))) }
{
    let file = value(matches, "FILE")?;
    let limit = number_or(PAIR_LIMIT, value(matches, "limit"))?;
    Some(CommandLine::Check {
        file,
        definition: definition_of(matches),
        root: value(matches, "root"),
        stubs: value(matches, "stubs"),
        limit,
        by_nesting: is_given(matches, "nesting"),
        as_json: is_given(matches, "json"),
        is_shortest: is_given(matches, "shortest"),
    })
}

fn run_line<'a>(matches: &ArgMatches<'a>) -> Option<CommandLine<'a>>
    ensures { option_map asked_as result
        ≡ spec.asked_run (spec.values_of (rows_of (found_of matches.now))) }
{
    let file = value(matches, "FILE")?;
    let steps = number_or(10_000_000, value(matches, "steps"))?;
    Some(CommandLine::Run {
        file,
        root: value(matches, "root"),
        stubs: value(matches, "stubs"),
        request: value(matches, "request"),
        steps,
    })
}

fn page_line<'a>(matches: &ArgMatches<'a>) -> Option<CommandLine<'a>>
    ensures { option_map asked_as result
        ≡ spec.asked_page (spec.values_of (rows_of (found_of matches.now))) }
{
    Some(CommandLine::Page {
        file: value(matches, "FILE")?,
        definition: definition_of(matches),
        root: value(matches, "root"),
    })
}

fn grammar_line<'a>(matches: &ArgMatches<'a>) -> Option<CommandLine<'a>>
    ensures { option_map asked_as result
        ≡ spec.asked_grammar (spec.values_of (rows_of (found_of matches.now))) }
{
    Some(CommandLine::Grammar {
        file: value(matches, "FILE")?,
        root: value(matches, "root"),
        stubs: value(matches, "stubs"),
    })
}

fn make_line<'a>(matches: &ArgMatches<'a>) -> Option<CommandLine<'a>>
    ensures { option_map asked_as result
        ≡ spec.asked_make (spec.values_of (rows_of (found_of matches.now))) }
{
    Some(CommandLine::Make {
        functions: number_of(value(matches, "N")?)?,
        is_checked: is_given(matches, "check"),
    })
}

fn site_line<'a>(matches: &ArgMatches<'a>) -> Option<CommandLine<'a>>
    ensures { option_map asked_as result
        ≡ spec.asked_site (spec.values_of (rows_of (found_of matches.now))) }
{
    let file = value(matches, "FILE")?;
    let limit = number_or(PAIR_LIMIT, value(matches, "limit"))?;
    Some(CommandLine::Site {
        file,
        definition: definition_of(matches),
        root: value(matches, "root"),
        stubs: value(matches, "stubs"),
        limit,
        by_nesting: is_given(matches, "nesting"),
    })
}

fn match_line<'a>(matches: &ArgMatches<'a>) -> Option<CommandLine<'a>>
    ensures { option_map asked_as result
        ≡ spec.asked_match (spec.values_of (rows_of (found_of matches.now))) }
{
    let file = value(matches, "FILE")?;
    let policy = value(matches, "policy")?;
    Some(CommandLine::Match {
        file,
        policy,
        root: value(matches, "root"),
        stubs: value(matches, "stubs"),
    })
}

/// What the command of this word asks for.
pub(crate) fn line_by<'a>(name: &str, matches: &ArgMatches<'a>) -> Option<CommandLine<'a>>
    ensures { option_map asked_as result
        ≡ spec.asked_by name.now (spec.values_of (rows_of (found_of matches.now))) }
{
    match name {
        "check" => check_line(matches),
        "run" => run_line(matches),
        "page" => page_line(matches),
        "grammar" => grammar_line(matches),
        "make" => make_line(matches),
        "site" => site_line(matches),
        "match" => match_line(matches),
        _ => None,
    }
}
