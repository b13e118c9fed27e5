//! What is written of the script of a file.

ghost use Rattle.program_files.specs.Source.{source_call};
ghost use Rattle.document_types.specs.DocumentTypes.{type_of};
ghost use Rattle.phpsa_tasks.specs.declared.choice.PageChoice.TheVariants.{First};
ghost use Rattle.phpsa_tasks.specs.Tasks.{script_check};
ghost use Rattle.phpsa_tasks.specs.Views.{script_file_as};
ghost use Rattle.phpsa_tasks.specs.Results.{Does};

use crate::answers::answer_message;
use crate::deciding::decide_script;
use document_types::DocumentType;
use io_edge::Files;
use page_decision::Goal;
use phpsa_tasks::{Reply, ScriptFile};
use phpsa_texts::{AnswerForm, Refusal};
use std::alloc::Global;
use text_base::NoMemory;

/// Decides the script of the file, as `decide_script` does: what is written of the answer, in this
/// form, and the status.
///
/// # Errors
///
/// As `decide_script`.
pub(crate) fn check_script<F: Files>(
    alloc: Global,
    file: ScriptFile<'_>,
    document_type: DocumentType<'_>,
    goal: Goal,
    limit: u64,
    form: AnswerForm,
    files: &mut F,
) -> Result<Reply, Refusal>
    ensures { Does (source_call (F.content files.new) (F.faults files.old) (F.faults files.new)
        (F.misses files.old) (F.misses files.new) (F.reads files.old) (F.reads files.new))
        (script_check (script_file_as file.entry) (type_of document_type.entry) goal limit form First) result }
{
    let answer = match decide_script(alloc, file, document_type, goal, limit, files) {
        Ok(answer) => answer,
        Err(refusal) => return Err(refusal),
    };
    match answer_message(alloc, form, &answer) {
        Ok(message) => Ok(Reply::Text(message)),
        Err(NoMemory) => Err(Refusal::Memory),
    }
}
