//! The script of a file is run.

ghost use Rattle.std.specs.Prelude.{◌≡◌, ℕ, Some, IfOk, option_map};
ghost use Rattle.io_edge.specs.Told.{Stays};
ghost use Rattle.program_rules.specs.View.{program_of};
ghost use Rattle.script_meaning.specs.Requests.{Admitted};
ghost use Rattle.program_files.specs.Source.{source_call};
ghost use Rattle.script_runs.specs.Outcomes.{plain_outcome};
ghost use Rattle.phpsa_tasks.specs.Tasks.{script_run};
ghost use Rattle.phpsa_tasks.specs.Views.{script_file_as};
ghost use Rattle.phpsa_tasks.specs.Results.{Does};
ghost use Rattle.phpsa_main.specs.Loaded.{HasRequest, IsRunReply, IsReplyOfRun};

use crate::loading::load_script;
use io_edge::{FileKind, Files};
use php_syntax::tree::SuperName;
use phpsa_tasks::{Reply, ScriptFile};
use phpsa_texts::{
    Exit, Message, Refusal, deep_message, fault_message, file_refusal, load_refusal,
    request_refusal, spent_message,
};
use program_rules::Program;
use request_reading::{Request, read_request};
use script_runs::{End, Ended, run};
use std::alloc::Global;
use text_base::NoMemory;

/// The request of the file of this name.
fn read_file<F: Files>(alloc: Global, name: &str, files: &mut F) -> Result<Request, Refusal>
    ensures request { HasRequest
        (source_call (F.content files.new) (F.faults files.old) (F.faults files.new)
        (F.misses files.old) (F.misses files.new) (F.reads files.old) (F.reads files.new))
        (Some name.now) result }
    ensures stays { Stays (F.content files.old) (F.content files.new) }
{
    let bytes = match files.read(alloc, name, FileKind::Any) {
        Ok(bytes) => bytes,
        Err(fault) => return Err(file_refusal(alloc, fault, name.as_bytes())),
    };
    match read_request(alloc, bytes.as_slice()) {
        Ok(request) => Ok(request),
        Err(refusal) => Err(request_refusal(alloc, &refusal)),
    }
}

/// The request of a file, or one of five empty arrays.
fn request_of<F: Files>(
    alloc: Global,
    name: Option<&str>,
    files: &mut F,
) -> Result<Request, Refusal>
    ensures request { HasRequest
        (source_call (F.content files.new) (F.faults files.old) (F.faults files.new)
        (F.misses files.old) (F.misses files.new) (F.reads files.old) (F.reads files.new))
        (option_map (λ text. text.now) name.entry) result }
    ensures stays { Stays (F.content files.old) (F.content files.new) }
{
    match name {
        None => Ok(Request::empty(alloc)?),
        Some(name) => read_file(alloc, name, files),
    }
}

/// What is written of a run that has ended.
fn reply_of(alloc: Global, ended: Ended, steps: u64) -> Result<Reply, NoMemory>
    ensures { IfOk result (λ reply. IsRunReply (plain_outcome ended) steps reply) }
{
    match ended.end {
        End::Ended => Ok(Reply::Text(Message {
            status: Exit::Done,
            text: ended.printed,
        })),
        End::Fault(fault) => {
            let message = fault_message(alloc, fault)?;
            Ok(Reply::Halted {
                printed: ended.printed,
                message,
            })
        }
        End::Spent => {
            let message = spent_message(alloc, steps)?;
            Ok(Reply::Halted {
                printed: ended.printed,
                message,
            })
        }
        End::Deep => {
            let message = deep_message(alloc)?;
            Ok(Reply::Halted {
                printed: ended.printed,
                message,
            })
        }
    }
}

/// Runs a program for a request within so many units: what is written of that.
fn run_reply(
    alloc: Global,
    program: &Program,
    request: &Request,
    steps: u64,
) -> Result<Reply, NoMemory>
    ensures reply { IfOk result
        (λ reply. IsReplyOfRun (program_of program.now) request.now steps reply) }
    ensures admitted { Admitted request.now }
{
    // A request is admitted, which its type keeps and each of its arrays tells.
    let _ = request.array(SuperName::Get);
    let ended = run(alloc, program, request, steps)?;
    reply_of(alloc, ended, steps)
}

/// Runs the script of the file, with all that it includes, for the request of a file, or one of
/// five empty arrays, within so many units: what it printed, and why it did not come to its end,
/// where it did not. The script is read first, and then the request.
///
/// # Errors
///
/// What is told where the program is not loaded or there is no request; and `Memory`.
pub(crate) fn run_script<F: Files>(
    alloc: Global,
    file: ScriptFile<'_>,
    request: Option<&str>,
    steps: u64,
    files: &mut F,
) -> Result<Reply, Refusal>
    ensures { Does (source_call (F.content files.new) (F.faults files.old) (F.faults files.new)
        (F.misses files.old) (F.misses files.new) (F.reads files.old) (F.reads files.new))
        (script_run (script_file_as file.entry) (option_map (λ text. text.now) request.entry) steps) result }
{
    let program = match load_script(alloc, file, files) {
        Ok(program) => program,
        Err(refusal) => return Err(load_refusal(alloc, &refusal)),
    };
    let asked = match request_of(alloc, request, files) {
        Ok(asked) => asked,
        Err(refusal) => return Err(refusal),
    };
    match run_reply(alloc, &program, &asked, steps) {
        Ok(reply) => Ok(reply),
        Err(NoMemory) => Err(Refusal::Memory),
    }
}
