//! The pages of the script of a file are held against the pattern of another.

ghost use Rattle.std.specs.Prelude.{IfOk};
ghost use Rattle.io_edge.specs.Told.{Stays};
ghost use Rattle.derivatives.specs.Standing.{IsExpr};
ghost use Rattle.page_policy.specs.Patterns.{Pattern as Plain};
ghost use Rattle.page_policy.specs.Forms.{IsForm};
ghost use Rattle.program_rules.specs.View.{program_of};
ghost use Rattle.program_files.specs.Source.{source_call};
ghost use Rattle.phpsa_texts.specs.Texts.{Says};
ghost use Rattle.phpsa_tasks.specs.Tasks.{script_match};
ghost use Rattle.phpsa_tasks.specs.PolicyAnswers.{match_status, match_text};
ghost use Rattle.phpsa_tasks.specs.Views.{script_file_as};
ghost use Rattle.phpsa_tasks.specs.Results.{Does};
ghost use Rattle.phpsa_main.specs.Matched.{HasPattern, HasMatchReply};

use crate::loading::load_script;
use io_edge::{FileKind, Files};
use page_policy::{Pattern, read_policy};
use phpsa_tasks::{Reply, ScriptFile};
use phpsa_texts::{
    AnswerForm, Message, PassedCount, Refusal, file_refusal, load_refusal, long_text_refusal,
    many_states_message, no_message, passed_message, policy_refusal, yes_message,
};
use program_rules::Program;
use script_decision::{MatchRefusal, PolicyAnswer, decide_policy};
use std::alloc::Global;
use text_base::NoMemory;

/// The pattern of the file of this name.
fn read_pattern<F: Files>(alloc: Global, name: &str, files: &mut F) -> Result<Pattern, Refusal>
    ensures pattern { HasPattern
        (source_call (F.content files.new) (F.faults files.old) (F.faults files.new)
        (F.misses files.old) (F.misses files.new) (F.reads files.old) (F.reads files.new))
        name.now result }
    ensures stays { Stays (F.content files.old) (F.content files.new) }
{
    let bytes = match files.read(alloc, name, FileKind::Any) {
        Ok(bytes) => bytes,
        Err(fault) => return Err(file_refusal(alloc, fault, name.as_bytes())),
    };
    match read_policy(alloc, bytes.as_slice()) {
        Ok(pattern) => Ok(pattern),
        Err(refusal) => Err(policy_refusal(alloc, refusal)),
    }
}

/// The text and the status of an answer.
fn match_message(alloc: Global, answer: &PolicyAnswer) -> Result<Message, NoMemory>
    ensures { IfOk result
        (λ message. Says message (match_status answer.now) (match_text answer.now)) }
{
    let form = AnswerForm::Plain;
    match answer {
        PolicyAnswer::Yes => yes_message(alloc, form),
        PolicyAnswer::No(page) => no_message(alloc, form, page.length, page.front.as_slice()),
        PolicyAnswer::Items { count } => {
            passed_message(alloc, form, PassedCount::Items { count: *count })
        }
        PolicyAnswer::States { count } => many_states_message(alloc, *count),
    }
}

/// What is written of the program of the file of this name by a pattern, or why there is nothing.
fn match_reply(
    alloc: Global,
    name: &str,
    program: &Program,
    pattern: Pattern,
) -> Result<Reply, Refusal>
    requires { IsExpr pattern.arena pattern.root }
    ensures { (p : Plain) → IsForm pattern.arena pattern.root p
        → HasMatchReply (program_of program.now) p name.now result }
{
    let answer = match decide_policy(alloc, program, pattern) {
        Ok(answer) => answer,
        Err(MatchRefusal::LongText) => return Err(long_text_refusal(alloc, name.as_bytes())),
        Err(MatchRefusal::Memory) => return Err(Refusal::Memory),
    };
    match match_message(alloc, &answer) {
        Ok(message) => Ok(Reply::Text(message)),
        Err(NoMemory) => Err(Refusal::Memory),
    }
}

/// Whether each loose page of the script of the file, with all that it includes, fits the pattern of
/// the file `policy`: what is written of the answer, and the status. The script is read first, and
/// then the pattern.
///
/// # Errors
///
/// What is told where the program is not loaded, there is no pattern, or a text of the program is
/// over the limit of a run; and `Memory`.
pub(crate) fn match_script<F: Files>(
    alloc: Global,
    file: ScriptFile<'_>,
    policy: &str,
    files: &mut F,
) -> Result<Reply, Refusal>
    ensures { Does (source_call (F.content files.new) (F.faults files.old) (F.faults files.new)
        (F.misses files.old) (F.misses files.new) (F.reads files.old) (F.reads files.new))
        (script_match (script_file_as file.entry) policy.now) result }
{
    let program = match load_script(alloc, file, files) {
        Ok(program) => program,
        Err(refusal) => return Err(load_refusal(alloc, &refusal)),
    };
    let pattern = match read_pattern(alloc, policy, files) {
        Ok(pattern) => pattern,
        Err(refusal) => return Err(refusal),
    };
    match_reply(alloc, file.name, &program, pattern)
}
