//! The answers for several files.

ghost use Rattle.std.specs.Prelude.{◌≡◌, IfOk, bytes_eq, map, string_bytes};
ghost use Rattle.std.specs.List.{list_any};
ghost use Rattle.several_files.specs.Lines as spec;
ghost use Rattle.several_files.specs.Views.{answer_as};

use crate::checks::AskedFile;
use crate::outcome::{is_decided, outcome_of};
use io_edge::normal_name;
use phpsa_texts::Exit;
use std::alloc::Global;
use text_base::{Bytes, NoMemory};

/// What a call on a file came to: its status, the text of its line, and the normal names of the
/// files that were read for it as parts of programs.
#[derive(Drop)]
pub struct FileAnswer {
    pub(crate) file: AskedFile,
    pub(crate) status: Exit,
    pub(crate) text: Bytes,
    pub(crate) included: Vec<String>,
}

/// Whether this is one of the names.
fn has_name(names: &[String], wanted: &str) -> bool
    ensures { result ≡ list_any (bytes_eq wanted.now) (map string_bytes names.now) }
{
    let mut rest = names;
    while let Some((name, others)) = rest.split_first() {
        if name.as_str() == wanted {
            return true;
        }
        rest = others;
    }
    false
}

/// Whether the file of this name is read for another one, whose program is loaded, as a part of it.
fn is_part_of(name: &str, answer: &FileAnswer) -> bool
    ensures { result ≡ spec.is_part_of name.now (answer_as answer.now) }
{
    is_decided(outcome_of(answer.status)) && has_name(answer.included.as_slice(), name)
}

/// Whether it is so for one of these.
fn is_included(name: &str, answers: &[FileAnswer]) -> bool
    ensures { result ≡ list_any (spec.is_part_of name.now) (map answer_as answers.now) }
{
    let mut rest = answers;
    while let Some((answer, others)) = rest.split_first() {
        if is_part_of(name, answer) {
            return true;
        }
        rest = others;
    }
    false
}

/// Whether the file was found in a folder, and another of the files includes it.
fn is_left_out(alloc: Global, all: &[FileAnswer], answer: &FileAnswer) -> Result<bool, NoMemory>
    ensures { IfOk result
        (λ out. out ≡ spec.is_left_out (map answer_as all.now) (answer_as answer.now)) }
{
    if !answer.file.is_found {
        return Ok(false);
    }
    let name = normal_name(alloc, answer.file.name.as_str())?;
    Ok(is_included(name.as_str(), all))
}

/// The answers that are told: all but those of files in a folder that others of the files include.
pub(crate) fn told<'a>(
    alloc: Global,
    answers: &'a [FileAnswer],
) -> Result<Vec<&'a FileAnswer>, NoMemory>
    ensures { IfOk result (λ told. map (λ answer. answer_as answer.now) told.items
        ≡ spec.told (map answer_as answers.entry.now)) }
{
    let mut told = Vec::new(alloc);
    let mut rest = answers;
    while let [answer, others @ ..] = rest {
        if !is_left_out(alloc, answers, answer)? {
            told.push(answer)?;
        }
        rest = others;
    }
    Ok(told)
}
