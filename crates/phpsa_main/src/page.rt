//! The page of a file.

ghost use Rattle.dtd_model.specs.TableOf.{table_of};
ghost use Rattle.program_files.specs.Source.{source_call};
ghost use Rattle.document_types.specs.DocumentTypes.{type_of};
ghost use Rattle.phpsa_tasks.specs.Tasks.{page_check};
ghost use Rattle.phpsa_tasks.specs.Results.{Does};
ghost use Rattle.phpsa_main.specs.Judged.{IsJudgedAs};

use document_types::DocumentType;
use dtd_model::Dtd;
use io_edge::{FileKind, Files};
use page_validator::{PageRefusal, check_page};
use phpsa_tasks::Reply;
use phpsa_texts::{Refusal, definition_refusal, file_refusal, judgment_message, states_refusal};
use std::alloc::Global;

/// Whether the page is valid by the definition.
fn judged(alloc: Global, dtd: &Dtd, page: &[u8]) -> Result<Reply, Refusal>
    ensures { IsJudgedAs (table_of dtd.now) page.now result }
{
    match check_page(alloc, dtd, page) {
        Ok(()) => Ok(Reply::Text(judgment_message(alloc, true)?)),
        Err(PageRefusal::PageFault { .. }) => Ok(Reply::Text(judgment_message(alloc, false)?)),
        Err(PageRefusal::Limit { count }) => Err(states_refusal(alloc, count)),
        Err(PageRefusal::Memory) => Err(Refusal::Memory),
    }
}

/// Judges the page of the file by the definition of the document type: what is written, and the
/// status. The page is read first, and then what the document type asks for.
///
/// # Errors
///
/// What is told where the page is not read or there is no definition; and `Memory`.
pub(crate) fn judge_page<F: Files>(
    alloc: Global,
    file: &str,
    document_type: DocumentType<'_>,
    files: &mut F,
) -> Result<Reply, Refusal>
    ensures { Does (source_call (F.content files.new) (F.faults files.old) (F.faults files.new)
        (F.misses files.old) (F.misses files.new) (F.reads files.old) (F.reads files.new))
        (page_check file.now (type_of document_type.entry)) result }
{
    let page = match files.read(alloc, file, FileKind::Any) {
        Ok(page) => page,
        Err(fault) => return Err(file_refusal(alloc, fault, file.as_bytes())),
    };
    let dtd = match document_type.definition(alloc, files) {
        Ok(dtd) => dtd,
        Err(refusal) => return Err(definition_refusal(alloc, &refusal)),
    };
    judged(alloc, &dtd, page.as_slice())
}
