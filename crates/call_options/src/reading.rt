//! The options of a file of TOML.

ghost use Rattle.std.specs.Prelude.{◌≡◌, ◌+◌, IfOk, IfErr, Some};
ghost use Rattle.toml.specs.View.{table_view};
ghost use Rattle.call_options.specs.Outcome.{IsCause, IsUnparsed, gives, line_at as line_of, line_feeds, outcome, parsed};
ghost use Rattle.call_options.specs.Views.{settings_as};

use crate::members::{first_refused, settings_in};
use crate::refusal::OptionsRefusal;
use crate::setting::Setting;
use std::alloc::Global;
use text_base::{Bytes, front};
use toml::Table;

/// How many line feeds there are, and one more.
fn lines_in(bytes: &[u8]) -> u64
    ensures value { result ≡ 1 + line_feeds bytes.now }
{
    let mut lines = 1u64;
    for byte in bytes {
        if *byte == b'\n' {
            lines += 1;
        }
    }
    lines
}

/// The line of a place in a file, from 1.
fn line_at(file: &[u8], place: usize) -> u64
    ensures { result ≡ line_of file.now place }
{
    lines_in(front(file, place))
}

/// The table of a file of TOML.
fn parse(alloc: Global, file: &[u8]) -> Result<Table, OptionsRefusal>
    ensures ok { IfOk result (λ table. parsed file.now ≡ Some (table_view table)) }
    ensures err { IfErr result (IsUnparsed file.now) }
{
    match toml::table_from_slice(alloc, file) {
        Ok(table) => Ok(table),
        Err(error) => match error.span() {
            None => Err(OptionsRefusal::Memory),
            Some(span) => Err(OptionsRefusal::NotToml {
                line: line_at(file, span.start),
            }),
        },
    }
}

/// The options that a file of TOML 1.1 in UTF-8 gives, in byte order of their names: `dtd`, `root`
/// and `stubs`, texts that are neither empty nor begin with `-`, but that they may be `-` alone, and
/// `limit`, an integer from 1 to 99,999,999.
///
/// # Errors
///
/// `NotToml` with a line, where the file is none; else `Member` with the name of the first member,
/// in byte order, that is no option or whose value is none of that option; and `Memory`.
pub fn read_options(alloc: Global, file: &[u8]) -> Result<Vec<Setting>, OptionsRefusal>
    ensures ok { IfOk result (λ settings. outcome file.now ≡ gives (settings_as settings.items)) }
    ensures err { IfErr result (λ refusal. IsCause file.now refusal) }
{
    let table = parse(alloc, file)?;
    if let Some(name) = first_refused(alloc, &table)? {
        let name = Bytes::from_slice(alloc, name.as_bytes())?;
        return Err(OptionsRefusal::Member { name });
    }
    let settings = settings_in(alloc, &table)?;
    Ok(settings)
}
