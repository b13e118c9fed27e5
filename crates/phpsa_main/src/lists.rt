//! The scripts of a list.

ghost use Rattle.std.specs.Prelude.{map, string_bytes};
ghost use Rattle.io_edge.specs.Told.{Stays};
ghost use Rattle.dtd_model.specs.TableOf.{table_of};
ghost use Rattle.program_files.specs.Source.{source_call};
ghost use Rattle.document_types.specs.DocumentTypes.{type_of};
ghost use Rattle.site_check.specs.Site.{moment};
ghost use Rattle.phpsa_tasks.specs.Tasks.{list_check};
ghost use Rattle.phpsa_tasks.specs.Views.{script_file_as};
ghost use Rattle.phpsa_tasks.specs.Results.{Does};
ghost use Rattle.phpsa_main.specs.Reported.{HasReport};

use crate::site_lines::ByDefinition;
use document_types::DocumentType;
use io_edge::{FileKind, Files};
use page_decision::Goal;
use phpsa_tasks::{Reply, ScriptFile};
use phpsa_texts::{Refusal, definition_refusal, file_refusal, list_refusal, site_message};
use site_check::{read_list, site};
use std::alloc::Global;
use text_base::NoMemory;

/// The report on the scripts of these names, all of it.
fn report_on<F: Files>(
    alloc: Global,
    names: &[String],
    answers: &ByDefinition<'_>,
    files: &mut F,
) -> Result<Reply, Refusal>
    ensures report { HasReport (script_file_as answers.now.list)
        (table_of answers.now.dtd.now) answers.now.goal answers.now.limit
        (moment (F.content files.old) (F.faults files.old) (F.misses files.old))
        (moment (F.content files.new) (F.faults files.new) (F.misses files.new))
        (map string_bytes names.now) result }
    ensures stays { Stays (F.content files.old) (F.content files.new) }
{
    let lines = match site(alloc, files, answers, names) {
        Ok(lines) => lines,
        Err(NoMemory) => return Err(Refusal::Memory),
    };
    match site_message(alloc, names, lines.as_slice()) {
        Ok(message) => Ok(Reply::Text(message)),
        Err(NoMemory) => Err(Refusal::Memory),
    }
}

/// Decides each script of the list in the file, as `check_script` does for that script alone with
/// the root and the stubs that are given here: a report with a line for each, in the order of the
/// list, and its status. The list is read first, then what the document type asks for, once, and
/// then the scripts.
///
/// # Errors
///
/// What is told where the list is not read or is none, or there is no definition; and `Memory`.
pub(crate) fn check_list<F: Files>(
    alloc: Global,
    file: ScriptFile<'_>,
    document_type: DocumentType<'_>,
    goal: Goal,
    limit: u64,
    files: &mut F,
) -> Result<Reply, Refusal>
    ensures { Does (source_call (F.content files.new) (F.faults files.old) (F.faults files.new)
        (F.misses files.old) (F.misses files.new) (F.reads files.old) (F.reads files.new))
        (list_check (script_file_as file.entry) (type_of document_type.entry) goal limit) result }
{
    let list = match files.read(alloc, file.name, FileKind::Any) {
        Ok(list) => list,
        Err(fault) => return Err(file_refusal(alloc, fault, file.name.as_bytes())),
    };
    let names = match read_list(alloc, list.as_slice()) {
        Ok(names) => names,
        Err(refusal) => return Err(list_refusal(alloc, refusal)),
    };
    let dtd = match document_type.definition(alloc, files) {
        Ok(dtd) => dtd,
        Err(refusal) => return Err(definition_refusal(alloc, &refusal)),
    };
    let answers = ByDefinition {
        list: file,
        dtd: &dtd,
        goal,
        limit,
    };
    report_on(alloc, names.as_slice(), &answers, files)
}
