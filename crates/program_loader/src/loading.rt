//! The program of a name.

ghost use Rattle.std.specs.Prelude.{◌≡◌, IfOk, IfErr, option_map};
ghost use Rattle.io_edge.specs.Names.{normal};
ghost use Rattle.io_edge.specs.Told.{Stays};
ghost use Rattle.program_rules.specs.View.{program_of};
ghost use Rattle.program_files.specs.Source.{source_call};
ghost use Rattle.program_loader.specs.Causes.{Loads, IsLoadCause};

use crate::laws::what_is_made_is_loaded;
use crate::making::make_program;
use io_edge::{Files, normal_name};
use program_files::{LoadRefusal, read_files, read_stubs};
use program_rules::Program;
use std::alloc::Global;
use text_base::{Bytes, NoMemory};

/// The program of a name (PHP manual, "include"): its file and all that it includes, directly or
/// through others, each read once, where it is first included, with every include replaced by the
/// statements of its file and the functions of all files in one table. The name is taken in its
/// normal form. An include is looked for in the folder of that file, and where nothing is there, and
/// its name begins with neither `./` nor `../`, in the folder of the file that names it. Where the
/// source tells after the call what it gave in it, it is the program of those bytes; of a source
/// that never tells, of some bytes that it could hold. The file of the name may be of any kind, the
/// others are regular ones. The root is a folder in its normal form. Takes time linear in the files
/// and in the program.
///
/// Where there is a file of stubs, it is read behind the others, once, whatever the root is, by its
/// name in the normal form; it may be of any kind. It is a script that includes nothing. Those of
/// its functions stand behind the functions of the files that have the name of none of them, nor of
/// one of PHP's; its statements are not the program's.
///
/// # Errors
///
/// The first of these. While files are read: `Missing` with the name as it is handed over, or as it
/// is written in an include; `Outside` with the name as it is written of an include that is absolute
/// or leads out of the root; `ReadFault`, `TooLong` and `Script` with the name that was asked for;
/// and `TooMany` with 257 where a 257th included file is there, or a 257th name is missed. Then, of
/// the file of stubs, `Missing`, `ReadFault`, `TooLong` and `Script` likewise, the last also where
/// it includes something. Once all are read: `IncludeCycle` with a file that includes itself;
/// `DoubleFunction`, `UnknownFunction` and `Arity` with the name of a function, a stub among them;
/// and `TooMany` with the limit that is passed and one more: of 256 places of includes, 200,000
/// nodes, or a height of 1,000, in this order. `Memory` may come at any time.
pub fn load<F: Files>(
    alloc: Global,
    source: &mut F,
    root: &str,
    name: &str,
    stubs: Option<&str>,
) -> Result<Program, LoadRefusal>
    ensures ok { IfOk result
        (λ program. Loads (source_call (F.content source.new) (F.faults source.old)
        (F.faults source.new)
        (F.misses source.old) (F.misses source.new) (F.reads source.old) (F.reads source.new))
        root.now name.now (option_map (λ text. text.now) stubs.entry) (program_of program)) }
    ensures err { IfErr result
        (IsLoadCause (source_call (F.content source.new) (F.faults source.old) (F.faults source.new)
        (F.misses source.old) (F.misses source.new) (F.reads source.old) (F.reads source.new))
        root.now name.now (option_map (λ text. text.now) stubs.entry)) }
    ensures stays { Stays (F.content source.old) (F.content source.new) }
{
    what_is_made_is_loaded();
    let files = read_files(alloc, source, root, name)?;
    let functions = read_stubs(alloc, source, stubs)?;
    let main = main_of(alloc, name)?;
    let program = make_program(alloc, &files, functions, &main)?;
    Ok(program)
}

// The normal form of a name.
fn main_of(alloc: Global, name: &str) -> Result<Bytes, NoMemory>
    ensures { IfOk result (λ main. main ≡ normal name.now) }
{
    let main = normal_name(alloc, name)?;
    Bytes::from_slice(alloc, main.as_bytes())
}
