//! What is written of the script of a file, with a shortest page where one is not good.

ghost use Rattle.std.specs.Prelude.{IfOk};
ghost use Rattle.dtd_model.specs.TableOf.{table_of};
ghost use Rattle.document_types.specs.DocumentTypes.{type_of};
ghost use Rattle.program_rules.specs.View.{program_of};
ghost use Rattle.program_files.specs.Source.{source_call};
ghost use Rattle.phpsa_texts.specs.Texts.{Says};
ghost use Rattle.phpsa_tasks.specs.declared.choice.PageChoice.TheVariants.{Shortest};
ghost use Rattle.phpsa_tasks.specs.Tasks.{script_check};
ghost use Rattle.phpsa_tasks.specs.ScriptAnswers.{shortest_status, shortest_text};
ghost use Rattle.phpsa_tasks.specs.Views.{script_file_as};
ghost use Rattle.phpsa_tasks.specs.Results.{Does};
ghost use Rattle.phpsa_main.specs.Decided.{IsShortestDecided, HasShortestReply};

use crate::loading::read_script;
use document_types::DocumentType;
use dtd_model::Dtd;
use io_edge::Files;
use page_decision::Goal;
use phpsa_tasks::{Reply, ScriptFile};
use phpsa_texts::{
    AnswerForm, Message, PassedCount, Refusal, long_text_refusal, no_message, passed_message,
    states_refusal, yes_message,
};
use program_rules::Program;
use script_decision::{CheckRefusal, ShortestAnswer, check_shortest};
use std::alloc::Global;
use text_base::NoMemory;

/// The text and the status of an answer.
fn shortest_message(
    alloc: Global,
    form: AnswerForm,
    answer: &ShortestAnswer,
) -> Result<Message, NoMemory>
    ensures { IfOk result
        (λ message. Says message (shortest_status answer.now) (shortest_text form answer.now)) }
{
    match answer {
        ShortestAnswer::Yes => yes_message(alloc, form),
        ShortestAnswer::No(page) => no_message(alloc, form, page.length, page.front.as_slice()),
        ShortestAnswer::Pairs { count, length } => {
            let passed = PassedCount::ShortPairs {
                count: *count,
                length: *length,
            };
            passed_message(alloc, form, passed)
        }
        ShortestAnswer::Tags { count, length } => {
            let passed = PassedCount::ShortTags {
                count: *count,
                length: *length,
            };
            passed_message(alloc, form, passed)
        }
        ShortestAnswer::Items { count } => {
            passed_message(alloc, form, PassedCount::Items { count: *count })
        }
    }
}

/// The answer for the program of the file of this name, or why there is none.
fn decided(
    alloc: Global,
    name: &str,
    program: &Program,
    dtd: &Dtd,
    goal: Goal,
    limit: u64,
) -> Result<ShortestAnswer, Refusal>
    ensures { IsShortestDecided (table_of dtd.now) (program_of program.now) name.now goal limit
        result }
{
    match check_shortest(alloc, program, dtd, goal, limit) {
        Ok(answer) => Ok(answer),
        Err(CheckRefusal::Limit { count }) => Err(states_refusal(alloc, count)),
        Err(CheckRefusal::LongText) => Err(long_text_refusal(alloc, name.as_bytes())),
        Err(CheckRefusal::Memory) => Err(Refusal::Memory),
    }
}

/// What is written of the program of the file of this name, or why there is nothing.
fn shortest_reply(
    alloc: Global,
    name: &str,
    program: &Program,
    dtd: &Dtd,
    goal: Goal,
    limit: u64,
    form: AnswerForm,
) -> Result<Reply, Refusal>
    ensures { HasShortestReply (table_of dtd.now) (program_of program.now) name.now goal limit form
        result }
{
    let answer = match decided(alloc, name, program, dtd, goal, limit) {
        Ok(answer) => answer,
        Err(refusal) => return Err(refusal),
    };
    match shortest_message(alloc, form, &answer) {
        Ok(message) => Ok(Reply::Text(message)),
        Err(NoMemory) => Err(Refusal::Memory),
    }
}

/// Decides the script of the file, with all that it includes in its root, as `check_script` does, but
/// that of pages which are not good one of the fewest bytes is shown.
///
/// # Errors
///
/// What is told where the program is not loaded, there is no definition, or a text of the program
/// is over the limit of a run; and `Memory`.
pub(crate) fn check_with_shortest<F: Files>(
    alloc: Global,
    file: ScriptFile<'_>,
    document_type: DocumentType<'_>,
    goal: Goal,
    limit: u64,
    form: AnswerForm,
    files: &mut F,
) -> Result<Reply, Refusal>
    ensures { Does (source_call (F.content files.new) (F.faults files.old) (F.faults files.new)
        (F.misses files.old) (F.misses files.new) (F.reads files.old) (F.reads files.new))
        (script_check (script_file_as file.entry) (type_of document_type.entry) goal limit form Shortest) result }
{
    let script = match read_script(alloc, file, document_type, files) {
        Ok(script) => script,
        Err(refusal) => return Err(refusal),
    };
    shortest_reply(
        alloc,
        file.name,
        &script.program,
        &script.dtd,
        goal,
        limit,
        form,
    )
}
