//! The files of a program, one after another.

ghost use Rattle.std.specs.Prelude.{◌≡◌, [], ℕ, List, IfOk, IfErr};
ghost use Rattle.io_edge.specs.Told.{Content, Stays};
ghost use Rattle.io_edge.specs.Names.{normal};
ghost use Rattle.program_files.specs.View.{files_of};
ghost use Rattle.program_files.specs.Source.{source_call};
ghost use Rattle.program_files.specs.Causes.{ReadsAll, IsReadCause};
ghost use Rattle.program_files.specs.Steps.{state, AsksOne, AddsFile};

use crate::asking::ask;
use crate::files::ScriptFiles;
use crate::naming::with_found_names;
use crate::places::{Home, Known, Step, next_step};
use crate::refusal::LoadRefusal;
use indexmap::IndexSet;
use io_edge::{Files, normal_name};
use std::alloc::Global;
use text_base::{Bytes, Stack};

/// Reads the file of a name and all that it includes, directly or through others, each once: a file
/// where it is first included, depth first, the includes of its body before those of its functions.
/// The name is taken in its normal form. The name of an include is first taken from the folder of
/// the program's file, and where there is no such file, and it begins with neither `./` nor `../`,
/// from the folder of the file that names it. The file of the name may be of any kind, the others
/// are regular ones. In the trees each include has its found name. That all is read holds whatever
/// else the source comes to tell later. Takes time linear in the files and in the names of their
/// includes.
///
/// # Errors
///
/// `Missing` with the name as it is handed over, or as it is written in an include; `Outside` with
/// the name of an include that is absolute, or leads out of the root, which is a folder in its
/// normal form; `ReadFault`, `TooLong` and `Script` with the name that was asked for; `TooMany`
/// with 257 where a 257th included file is there, or a 257th name is missed; and `Memory`.
pub fn read_files<F: Files>(
    alloc: Global,
    source: &mut F,
    root: &str,
    name: &str,
) -> Result<ScriptFiles, LoadRefusal>
    ensures ok { IfOk result
        (λ files. (later : Content) → Stays (F.content source.new) later → ReadsAll
        (source_call later (F.faults source.old) (F.faults source.new)
        (F.misses source.old) (F.misses source.new) (F.reads source.old) (F.reads source.new))
        root.now name.now (files_of files)) }
    ensures err { IfErr result
        (IsReadCause
        (source_call (F.content source.new) (F.faults source.old) (F.faults source.new)
        (F.misses source.old) (F.misses source.new) (F.reads source.old) (F.reads source.new))
        root.now name.now) }
    ensures stays { Stays (F.content source.old) (F.content source.new) }
{
    let main = normal_name(alloc, name)?;
    let home = Home {
        root,
        main: main.as_str(),
    };
    let mut includes = Stack::new(alloc);
    let mut known = read_main(alloc, source, &home, name, &mut includes)?;
    while let Some(step) = next_step(alloc, &home, &known, &mut includes)? {
        match step {
            Step::Ask(place) => {
                match ask(alloc, source, known, &mut includes, place.as_str()) {
                    Ok(more) => known = more,
                    Err(refusal) => return Err(refusal),
                }
            }
            Step::Missing(written) => return Err(LoadRefusal::Missing { name: written }),
            Step::Outside(written) => return Err(LoadRefusal::Outside { name: written }),
        }
    }
    let files = with_found_names(alloc, home.main, known.files)?;
    Ok(files)
}

// Reads the file of the program.
fn read_main<F: Files>(
    alloc: Global,
    source: &mut F,
    home: &Home,
    name: &str,
    includes: &mut Stack<(Bytes, Bytes)>,
) -> Result<Known, LoadRefusal>
    requires main { home.now.main.now ≡ normal name.now }
    requires first { includes.old ≡ [] }
    ensures ok { IfOk result
        (λ known. AddsFile (source_call (F.content source.new) (F.faults source.old)
        (F.faults source.new)
        (F.misses source.old) (F.misses source.new) (F.reads source.old) (F.reads source.new))
        home.now.main.now [] [] (files_of known.files) includes.new × (known.missed.keys ≡ [])) }
    ensures err { IfErr result
        (IsReadCause
        (source_call (F.content source.new) (F.faults source.old) (F.faults source.new)
        (F.misses source.old) (F.misses source.new) (F.reads source.old) (F.reads source.new))
        home.now.root.now name.now) }
    ensures stays { Stays (F.content source.old) (F.content source.new) }
{
    let known = Known {
        files: ScriptFiles::new(alloc),
        missed: IndexSet::new(alloc),
    };
    match ask(alloc, source, known, includes, home.main) {
        Ok(known) => {
            if known.files.len() > 0 {
                return Ok(known);
            }
            match Bytes::from_slice(alloc, name.as_bytes()) {
                Ok(name) => Err(LoadRefusal::Missing { name }),
                Err(_) => Err(LoadRefusal::Memory),
            }
        }
        Err(refusal) => Err(refusal),
    }
}
