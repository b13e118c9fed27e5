//! The names in a list of scripts.

ghost use Rattle.std.specs.Prelude.{◌≡◌, ◌≤◌, ◌++◌, [], ◌∷◌, length, map, string_bytes, OnOk, IfOk, IfErr};
ghost use Rattle.site_check.specs.Listed.{IsList, IsNoList, names_in, names_of};
ghost use Rattle.site_check.specs.Listed as spec;

use crate::list_refusal::{ListRefusal, NAMES_LIMIT};
use std::alloc::Global;
use text_base::{NoMemory, behind, front};

/// How many bytes stand before the first line feed, or in all.
fn line_length(text: &[u8]) -> usize
    ensures value { result ≡ spec.line_length text.now }
    ensures bound { result ≤ length text.now }
{
    let mut rest = text;
    let mut length = 0;
    while let Some((first, others)) = rest.split_first() {
        if *first == b'\n' {
            return length;
        }
        length += 1;
        rest = others;
    }
    length
}

/// The line without a carriage return at its end.
fn without_return(line: &[u8]) -> &[u8]
    ensures { result.now ≡ spec.without_return line.now }
{
    match line {
        [] => line,
        [before @ .., last] => { if *last == b'\r' { before } else { line } }
    }
}

/// Puts a line behind the names, if it is not empty.
fn add_name(alloc: Global, names: &mut Vec<String>, line: &str) -> Result<(), NoMemory>
    ensures { OnOk result (map string_bytes names.new.items
        ≡ map string_bytes names.old.items ++ names_of (line.now ∷ [])) }
{
    if line.is_empty() {
        return Ok(());
    }
    let name = String::from_str(alloc, line)?;
    names.push(name)?;
    Ok(())
}

/// The names in a list of scripts: one a line, where lines end with a line feed, or with a carriage
/// return and a line feed, and the last may end without. Empty lines are passed over.
///
/// # Errors
///
/// `NotUtf8` with the number of the first line that is no UTF-8; else `Names` where there is no name
/// or over `NAMES_LIMIT`, with how many there are; and `Memory`.
pub fn read_list(alloc: Global, text: &[u8]) -> Result<Vec<String>, ListRefusal>
    ensures ok { IfOk result
        (λ names. (map string_bytes names.items ≡ names_in text.now) × IsList text.now) }
    ensures err { IfErr result (IsNoList text.now) }
{
    let mut names = Vec::new(alloc);
    let mut rest = text;
    let mut number = 1u64;
    while !rest.is_empty() {
        let length = line_length(rest);
        let Ok(line) = str::from_utf8(without_return(front(rest, length))) else {
            return Err(ListRefusal::NotUtf8 { line: number });
        };
        add_name(alloc, &mut names, line)?;
        rest = behind(rest, length + 1);
        number += 1;
    }
    if names.is_empty() || names.len() > NAMES_LIMIT {
        return Err(ListRefusal::Names {
            count: names.len() as u64,
        });
    }
    Ok(names)
}
