//! A generated script is written.

ghost use Rattle.std.specs.Prelude.{◌≡◌};
ghost use Rattle.program_files.specs.Source.{SourceCall};
ghost use Rattle.phpsa_tasks.specs.Tasks.{script_making};
ghost use Rattle.phpsa_tasks.specs.Counted.{ReadsNothing};
ghost use Rattle.phpsa_tasks.specs.Results.{Does};

use phpsa_tasks::Reply;
use phpsa_texts::{Exit, Message, Refusal, size_refusal};
use script_maker::{MakeRefusal, make};
use std::alloc::Global;

/// The generated script with so many functions, which is written as it is, with status 0. It reads
/// no file, whatever source there is.
///
/// # Errors
///
/// What is told where a script cannot have so many functions, which are 0 or over 1,000; and
/// `Memory`.
pub(crate) fn make_script(alloc: Global, functions: u32) -> Result<Reply, Refusal>
    ensures { (files : SourceCall) → ReadsNothing files → files.faults' ≡ files.faults
        → Does files (script_making functions) result }
{
    match make(alloc, functions) {
        Ok(text) => Ok(Reply::Text(Message {
            status: Exit::Done,
            text,
        })),
        Err(MakeRefusal::Size { functions }) => Err(size_refusal(alloc, functions)),
        Err(MakeRefusal::Memory) => Err(Refusal::Memory),
    }
}
