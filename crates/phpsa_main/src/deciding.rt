//! The answer for the script of a file.

ghost use Rattle.io_edge.specs.Told.{Stays};
ghost use Rattle.dtd_model.specs.TableOf.{table_of};
ghost use Rattle.document_types.specs.DocumentTypes.{type_of};
ghost use Rattle.program_rules.specs.View.{program_of};
ghost use Rattle.program_files.specs.Source.{source_call};
ghost use Rattle.site_check.specs.Site.{moment, Leads};
ghost use Rattle.phpsa_tasks.specs.Views.{script_file_as};
ghost use Rattle.phpsa_main.specs.Decided.{Decides, DecidesBy, IsProgramDecided};

use crate::loading::{load_script, read_script};
use document_types::DocumentType;
use dtd_model::Dtd;
use io_edge::Files;
use page_decision::Goal;
use phpsa_tasks::ScriptFile;
use phpsa_texts::{Refusal, load_refusal, long_text_refusal, states_refusal};
use program_rules::Program;
use script_decision::{CheckRefusal, ShownAnswer, check_shown};
use std::alloc::Global;

/// The answer for the program of the file of this name, or why there is none.
fn decided(
    alloc: Global,
    name: &str,
    program: &Program,
    dtd: &Dtd,
    goal: Goal,
    limit: u64,
) -> Result<ShownAnswer, Refusal>
    ensures { IsProgramDecided (table_of dtd.now) (program_of program.now) name.now goal limit
        result }
{
    match check_shown(alloc, program, dtd, goal, limit) {
        Ok(answer) => Ok(answer),
        Err(CheckRefusal::Limit { count }) => Err(states_refusal(alloc, count)),
        Err(CheckRefusal::LongText) => Err(long_text_refusal(alloc, name.as_bytes())),
        Err(CheckRefusal::Memory) => Err(Refusal::Memory),
    }
}

/// Decides the script of the file, with all that it includes in its root: whether each loose page is good by
/// the goal and the definition of the document type, with at most `limit` different sums of the
/// sentences of one nonterminal. The script is read first, and then what the document type asks
/// for.
///
/// # Errors
///
/// What is told where the program is not loaded, there is no definition, or a text of the program
/// is over the limit of a run; and `Memory`.
pub(crate) fn decide_script<F: Files>(
    alloc: Global,
    file: ScriptFile<'_>,
    document_type: DocumentType<'_>,
    goal: Goal,
    limit: u64,
    files: &mut F,
) -> Result<ShownAnswer, Refusal>
    ensures decides { Decides (source_call (F.content files.new) (F.faults files.old) (F.faults files.new)
        (F.misses files.old) (F.misses files.new) (F.reads files.old) (F.reads files.new))
        (script_file_as file.entry) (type_of document_type.entry) goal limit result }
    ensures stays { Stays (F.content files.old) (F.content files.new) }
{
    let script = match read_script(alloc, file, document_type, files) {
        Ok(script) => script,
        Err(refusal) => return Err(refusal),
    };
    decided(alloc, file.name, &script.program, &script.dtd, goal, limit)
}

/// Decides the script of the file, with all that it includes, as `decide_script` does, by a
/// definition that was read before.
///
/// # Errors
///
/// What is told where the program is not loaded, the definition passes a limit on its content
/// models, or a text of the program is over the limit of a run; and `Memory`.
pub(crate) fn decide_by<F: Files>(
    alloc: Global,
    file: ScriptFile<'_>,
    dtd: &Dtd,
    goal: Goal,
    limit: u64,
    files: &mut F,
) -> Result<ShownAnswer, Refusal>
    ensures decides { DecidesBy
        (source_call (F.content files.new) (F.faults files.old) (F.faults files.new)
        (F.misses files.old) (F.misses files.new) (F.reads files.old) (F.reads files.new))
        (script_file_as file.entry) (table_of dtd.now) goal limit result }
    ensures leads { Leads (moment (F.content files.old) (F.faults files.old) (F.misses files.old))
        (moment (F.content files.new) (F.faults files.new) (F.misses files.new)) }
{
    let program = match load_script(alloc, file, files) {
        Ok(program) => program,
        Err(refusal) => return Err(load_refusal(alloc, &refusal)),
    };
    decided(alloc, file.name, &program, dtd, goal, limit)
}
