//! The program of a file, by its root and its stubs, and the definition that its pages are held
//! against.

ghost use Rattle.std.specs.Prelude.{IfOk, IfErr};
ghost use Rattle.io_edge.specs.Told.{Stays};
ghost use Rattle.program_rules.specs.View.{program_of};
ghost use Rattle.program_files.specs.Source.{source_call};
ghost use Rattle.program_loader.specs.Causes.{Loads, IsLoadCause};
ghost use Rattle.document_types.specs.DocumentTypes.{type_of};
ghost use Rattle.phpsa_tasks.specs.Tasks.{root_of};
ghost use Rattle.phpsa_tasks.specs.Views.{script_file_as};
ghost use Rattle.phpsa_main.specs.Decided.{ReadsBy};

use crate::script_by::ScriptBy;
use document_types::DocumentType;
use io_edge::{Files, root_for};
use phpsa_tasks::ScriptFile;
use phpsa_texts::{Refusal, definition_refusal, load_refusal};
use program_files::LoadRefusal;
use program_loader::load;
use program_rules::Program;
use std::alloc::Global;

/// The program of the file, with all that it includes in its root: the folder that is given, or else
/// that of the call where the file lies in it, or else that of the file; and with the functions of
/// its stubs that it takes.
///
/// # Errors
///
/// As `load`, for an include that leads out of the root `Outside`.
pub(crate) fn load_script<F: Files>(
    alloc: Global,
    file: ScriptFile<'_>,
    files: &mut F,
) -> Result<Program, LoadRefusal>
    ensures ok { IfOk result (λ program. Loads
        (source_call (F.content files.new) (F.faults files.old) (F.faults files.new)
        (F.misses files.old) (F.misses files.new) (F.reads files.old) (F.reads files.new))
        (root_of (script_file_as file.entry)) file.entry.name.now (script_file_as file.entry).stubs
        (program_of program)) }
    ensures err { IfErr result (IsLoadCause
        (source_call (F.content files.new) (F.faults files.old) (F.faults files.new)
        (F.misses files.old) (F.misses files.new) (F.reads files.old) (F.reads files.new))
        (root_of (script_file_as file.entry)) file.entry.name.now
        (script_file_as file.entry).stubs) }
    ensures stays { Stays (F.content files.old) (F.content files.new) }
{
    let root = root_for(alloc, file.root, file.name)?;
    load(alloc, files, root.as_str(), file.name, file.stubs)
}

/// The program of the file, as `load_script` gives it, and the definition of the document type. The
/// script is read first, and then what the document type asks for.
///
/// # Errors
///
/// What is told where the program is not loaded, or there is no definition; and `Memory`.
pub(crate) fn read_script<F: Files>(
    alloc: Global,
    file: ScriptFile<'_>,
    document_type: DocumentType<'_>,
    files: &mut F,
) -> Result<ScriptBy, Refusal>
    ensures reads { ReadsBy
        (source_call (F.content files.new) (F.faults files.old) (F.faults files.new)
        (F.misses files.old) (F.misses files.new) (F.reads files.old) (F.reads files.new))
        (script_file_as file.entry) (type_of document_type.entry) result }
    ensures stays { Stays (F.content files.old) (F.content files.new) }
{
    let program = match load_script(alloc, file, files) {
        Ok(program) => program,
        Err(refusal) => return Err(load_refusal(alloc, &refusal)),
    };
    match document_type.definition(alloc, files) {
        Ok(dtd) => Ok(ScriptBy { program, dtd }),
        Err(refusal) => Err(definition_refusal(alloc, &refusal)),
    }
}
