//! From words to what is to be done for them.

ghost use Rattle.std.specs.Prelude.{IfOk, map, string_bytes};
ghost use Rattle.phpsa_tasks.specs.Tasks.{AsksFor};
ghost use Rattle.phpsa_tasks.specs.Views.{task_as};

use crate::task::{Task, task_of};
use command_words::{WordsRefusal, read_words};
use std::alloc::Global;
use text_base::NoMemory;

/// What the words after the program's name ask for: nothing, and then the usage is told, and what is
/// wrong with them, where they are not taken.
pub fn asked_task<'a>(alloc: Global, words: &'a [String]) -> Result<Task<'a>, NoMemory>
    ensures { IfOk result (λ task. AsksFor (map string_bytes words.entry.now) (task_as task)) }
{
    match read_words(alloc, words) {
        Ok(line) => Ok(task_of(line)),
        Err(WordsRefusal::Usage { reason }) => Ok(Task::Usage { reason }),
        Err(WordsRefusal::Memory) => Err(NoMemory),
    }
}
