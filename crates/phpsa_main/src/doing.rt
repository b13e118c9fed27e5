//! Tasks are done, each by the function of its command.

ghost use Rattle.program_files.specs.Source.{source_call};
ghost use Rattle.phpsa_tasks.specs.Results.{Does};
ghost use Rattle.phpsa_tasks.specs.Views.{task_as};

use crate::grammars::make_grammar;
use crate::lists::check_list;
use crate::made::check_made;
use crate::making::make_script;
use crate::matching::match_script;
use crate::page::judge_page;
use crate::running::run_script;
use crate::script::check_script;
use crate::shortest::check_with_shortest;
use io_edge::Files;
use phpsa_tasks::{PageChoice, Reply, Task};
use phpsa_texts::{Refusal, help_message, usage_refusal, version_message};
use std::alloc::Global;

/// Does the task: what is written of it, or why it is refused.
pub(crate) fn result_of<F: Files>(
    alloc: Global,
    task: Task<'_>,
    files: &mut F,
) -> Result<Reply, Refusal>
    ensures { Does (source_call (F.content files.new) (F.faults files.old) (F.faults files.new)
        (F.misses files.old) (F.misses files.new) (F.reads files.old) (F.reads files.new))
        (task_as task.entry) result }
{
    match task {
        Task::ScriptCheck {
            file,
            document_type,
            goal,
            limit,
            form,
            choice: PageChoice::First,
        } => check_script(alloc, file, document_type, goal, limit, form, files),
        Task::ScriptCheck {
            file,
            document_type,
            goal,
            limit,
            form,
            choice: PageChoice::Shortest,
        } => check_with_shortest(alloc, file, document_type, goal, limit, form, files),
        Task::PageCheck {
            file,
            document_type,
        } => judge_page(alloc, file, document_type, files),
        Task::ScriptMaking { functions } => make_script(alloc, functions),
        Task::MadeCheck { functions } => check_made(alloc, functions),
        Task::ScriptRun {
            file,
            request,
            steps,
        } => run_script(alloc, file, request, steps, files),
        Task::GrammarMaking { file } => make_grammar(alloc, file, files),
        Task::ListCheck {
            file,
            document_type,
            goal,
            limit,
        } => check_list(alloc, file, document_type, goal, limit, files),
        Task::ScriptMatch { file, policy } => match_script(alloc, file, policy, files),
        Task::Help => Ok(Reply::Text(help_message(alloc)?)),
        Task::Version => Ok(Reply::Text(version_message(alloc)?)),
        Task::Usage { reason: None } => Err(usage_refusal(alloc, None)),
        Task::Usage { reason: Some(line) } => Err(usage_refusal(alloc, Some(line.as_bytes()))),
    }
}
