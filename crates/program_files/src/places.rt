//! Where an include is looked for, and what is next of it.

ghost use Rattle.std.specs.Prelude.{◌≡◌, [], ◌∷◌, true, IfOk, MatchOption};
ghost use Rattle.script_grammar.specs.Rules as rules;
ghost use Rattle.program_rules.specs.Files.{has_one_place};
ghost use Rattle.program_files.specs.View.{files_of};
ghost use Rattle.program_files.specs.Steps.{AreTexts, IsLookAt, IsLook, IsStep, Passes};

use crate::files::ScriptFiles;
use indexmap::IndexSet;
use io_edge::{is_dotted, is_outside, name_beside};
use std::alloc::Global;
use text_base::{Bytes, NoMemory, Stack};

/// The folder that no include leaves, and the normal name of the program's file.
#[derive(Debug, Drop)]
pub(crate) struct Home<'a> {
    pub root: &'a str,
    pub main: &'a str,
}

/// What was asked for: the files that were read, and the names that were missed.
#[derive(Debug, Drop)]
pub(crate) struct Known {
    pub files: ScriptFiles,
    pub missed: IndexSet<Bytes>,
}

/// What is next of an include: its file was read; or this name is asked for; or each of its places
/// was missed; or it leads out of the root.
#[derive(Debug, Drop)]
pub(crate) enum Look {
    Found,
    Ask(String),
    Missed,
    LeadsOut,
}

/// What is next of a program: this name is asked for; or the include of this name as it is written
/// is missing, or leads out of the root.
#[derive(Debug, Drop)]
pub(crate) enum Step {
    Ask(String),
    Missing(Bytes),
    Outside(Bytes),
}

/// Passes over the includes that are found, and tells what is next. An include whose place is to be
/// asked for stays.
pub(crate) fn next_step(
    alloc: Global,
    home: &Home,
    known: &Known,
    includes: &mut Stack<(Bytes, Bytes)>,
) -> Result<Option<Step>, NoMemory>
    requires { AreTexts includes.old }
    ensures { IfOk result (λ next. MatchOption next
        (Passes home.now.root.now home.now.main.now (files_of known.now.files)
        known.now.missed.keys includes.old [])
        (IsStep home.now.root.now home.now.main.now (files_of known.now.files)
        known.now.missed.keys includes.old includes.new)) }
{
    while let Some((file, written)) = includes.pop() {
        match look_of(alloc, home, known, &file, &written)? {
            Look::Found => {}
            Look::Ask(place) => {
                includes.push((file, written))?;
                return Ok(Some(Step::Ask(place)));
            }
            Look::Missed => return Ok(Some(Step::Missing(written))),
            Look::LeadsOut => return Ok(Some(Step::Outside(written))),
        }
    }
    Ok(None)
}

/// Whether an include is looked for in one place alone: its name begins with `/`, `./` or `../`.
pub(crate) fn has_one_place(written: &str) -> bool
    ensures { result ≡ has_one_place written.now }
{
    if written.starts_with('/') {
        return true;
    }
    is_dotted(written)
}

// What is next of an include that is written so in a file.
fn look_of(
    alloc: Global,
    home: &Home,
    known: &Known,
    file: &Bytes,
    written: &Bytes,
) -> Result<Look, NoMemory>
    requires file { rules.is_utf8 file.now ≡ true }
    requires written { rules.is_utf8 written.now ≡ true }
    ensures { IfOk result (IsLook home.now.root.now home.now.main.now (files_of known.now.files)
        known.now.missed.keys (file.now, written.now)) }
{
    match str::from_utf8(file.as_slice()) {
        Ok(file) => match str::from_utf8(written.as_slice()) {
            Ok(written) => look_for(alloc, home, known, file, written),
            Err(_) => unreachable!(),
        },
        Err(_) => unreachable!(),
    }
}

// The same of texts: by the first place, and where that was missed and is not the only one, by the
// second.
fn look_for(
    alloc: Global,
    home: &Home,
    known: &Known,
    file: &str,
    written: &str,
) -> Result<Look, NoMemory>
    ensures { IfOk result (IsLook home.now.root.now home.now.main.now (files_of known.now.files)
        known.now.missed.keys (file.now, written.now)) }
{
    match look_at(alloc, home.root, known, home.main, written)? {
        Look::Found => Ok(Look::Found),
        Look::Ask(place) => Ok(Look::Ask(place)),
        Look::LeadsOut => Ok(Look::LeadsOut),
        Look::Missed => {
            if has_one_place(written) {
                return Ok(Look::Missed);
            }
            let second = look_at(alloc, home.root, known, file, written)?;
            Ok(second)
        }
    }
}

// What is next of an include by its place in the folder of a file.
fn look_at(
    alloc: Global,
    root: &str,
    known: &Known,
    file: &str,
    written: &str,
) -> Result<Look, NoMemory>
    ensures { IfOk result (IsLookAt root.now (files_of known.now.files) known.now.missed.keys
        file.now written.now) }
{
    if is_outside(alloc, root, file, written)? {
        return Ok(Look::LeadsOut);
    }
    let place = name_beside(alloc, file, written)?;
    let name = Bytes::from_slice(alloc, place.as_bytes())?;
    if known.files.has(&name) {
        return Ok(Look::Found);
    }
    if known.missed.contains(&name) {
        return Ok(Look::Missed);
    }
    Ok(Look::Ask(place))
}
