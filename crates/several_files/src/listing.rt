//! The names of several files as a list for `site`.

ghost use Rattle.std.specs.Prelude.{◌≡◌, ◌++◌, IfOk, OnOk, map, string_bytes};
ghost use Rattle.std.specs.List.{list_any};
ghost use Rattle.several_files.specs.Lines as lines;
ghost use Rattle.several_files.specs.Listing as spec;
ghost use Rattle.several_files.specs.Endings.{IsListOr, IsListForOr, moment_of};
ghost use Rattle.several_files.specs.Views.{answer_as, checks_as, file_as};

use crate::answers::{FileAnswer, told};
use crate::call_files::{CallFiles, LIST_NAME};
use crate::calls::answers_for;
use crate::checks::{AskedFile, Checks};
use crate::words::{add_word, add_words};
use io_edge::Files;
use phpsa_texts::{Refusal, usage_refusal};
use std::alloc::Global;
use text_base::{Bytes, NoMemory};

/// Why a name cannot stand in a list.
pub const UNLISTABLE: &[u8] =
    b"a name that is empty or has a line end cannot stand in a report with --json";

fn is_json(option: &str) -> bool
    ensures { result ≡ spec.is_json option.now }
{
    option == "--json"
}

/// Whether lines of JSON are asked for.
pub(crate) fn asks_json(options: &[String]) -> bool
    ensures { result ≡ list_any spec.is_json (map string_bytes options.now) }
{
    let mut rest = options;
    while let Some((option, others)) = rest.split_first() {
        if is_json(option.as_str()) {
            return true;
        }
        rest = others;
    }
    false
}

/// Puts options behind words, without the first that asks for JSON.
fn add_options(alloc: Global, words: &mut Vec<String>, options: &[String]) -> Result<(), NoMemory>
    ensures { OnOk result (map string_bytes words.new.items
        ≡ map string_bytes words.old.items ++ spec.without_json (map string_bytes options.now)) }
{
    let mut rest = options;
    while let Some((option, others)) = rest.split_first() {
        if is_json(option.as_str()) {
            return add_words(alloc, words, others);
        }
        add_word(alloc, words, option.as_str())?;
        rest = others;
    }
    Ok(())
}

/// The words of the call of `site`.
pub(crate) fn site_words(alloc: Global, options: &[String]) -> Result<Vec<String>, NoMemory>
    ensures { IfOk result
        (λ words. map string_bytes words.items ≡ spec.site_words (map string_bytes options.now)) }
{
    let mut words = Vec::new(alloc);
    add_word(alloc, &mut words, "site")?;
    add_options(alloc, &mut words, options)?;
    add_word(alloc, &mut words, "--")?;
    add_word(alloc, &mut words, LIST_NAME)?;
    Ok(words)
}

/// Whether some of the names were found in a folder.
fn has_found(files: &[AskedFile]) -> bool
    ensures { result ≡ spec.has_found (map file_as files.now) }
{
    let mut rest = files;
    while let Some((file, others)) = rest.split_first() {
        if file.is_found {
            return true;
        }
        rest = others;
    }
    false
}

/// Whether a name may stand in a list.
fn is_listable(name: &[u8]) -> bool
    ensures { result ≡ spec.is_listable name.now }
{
    let mut rest = name;
    while let Some((first, others)) = rest.split_first() {
        if *first == b'\n' {
            return false;
        }
        if others.is_empty() {
            return *first != b'\r';
        }
        rest = others;
    }
    false
}

/// The names, as a list.
///
/// # Errors
///
/// That one cannot stand in a list; and `Memory`.
fn list_of(alloc: Global, names: &[&str]) -> Result<Bytes, Refusal>
    ensures { IsListOr (map (λ name. name.now) names.now) result }
{
    let mut list = Bytes::new(alloc);
    let mut rest = names;
    while let [name, others @ ..] = rest {
        if !is_listable(name.as_bytes()) {
            return Err(usage_refusal(alloc, Some(UNLISTABLE)));
        }
        list.append(name.as_bytes())?;
        list.push(b'\n')?;
        rest = others;
    }
    Ok(list)
}

/// The names of the files.
fn names_of<'a>(alloc: Global, files: &'a [AskedFile]) -> Result<Vec<&'a str>, NoMemory>
    ensures { IfOk result (λ names. map (λ name. name.now) names.items
        ≡ map (λ file. string_bytes file.name) files.entry.now) }
{
    let mut names = Vec::new(alloc);
    let mut rest = files;
    while let [file, others @ ..] = rest {
        names.push(file.name.as_str())?;
        rest = others;
    }
    Ok(names)
}

/// The names of the answers that are told.
fn told_names<'a>(alloc: Global, answers: &'a [FileAnswer]) -> Result<Vec<&'a str>, NoMemory>
    ensures { IfOk result (λ names. map (λ name. name.now) names.items
        ≡ map (λ answer. answer.file.name) (lines.told (map answer_as answers.entry.now))) }
{
    let told = told(alloc, answers)?;
    let mut names = Vec::new(alloc);
    let mut rest = told.as_slice();
    while let [answer, others @ ..] = rest {
        names.push(answer.file.name.as_str())?;
        rest = others;
    }
    Ok(names)
}

/// The list for `site`: of all names; or, where some were found in a folder, of those whose answers
/// are told.
///
/// # Errors
///
/// What the call on one of them says that ends the whole one; that a name cannot stand in a list;
/// and `Memory`.
pub(crate) fn list_for<F: Files>(
    alloc: Global,
    checks: &Checks,
    files: &mut CallFiles<F>,
) -> Result<Bytes, Refusal>
    ensures { IsListForOr (checks_as checks.now)
        (moment_of F.content F.faults F.misses files.old)
        (moment_of F.content F.faults F.misses files.new) result }
{
    let asked = checks.files.as_slice();
    if !has_found(asked) {
        let names = names_of(alloc, asked)?;
        return list_of(alloc, names.as_slice());
    }
    let answers = answers_for(alloc, checks.options.as_slice(), asked, files)?;
    let names = told_names(alloc, answers.as_slice())?;
    list_of(alloc, names.as_slice())
}
