//! The line of a report for a script, by a definition that is read.

ghost use Rattle.std.specs.Prelude.{IfOk};
ghost use Rattle.dtd_model.specs.TableOf.{table_of};
ghost use Rattle.phpsa_tasks.specs.Tasks.{listed};
ghost use Rattle.phpsa_tasks.specs.Views.{script_file_as};
ghost use Rattle.phpsa_tasks.specs.Sites.{IsLineFor};
ghost use Rattle.phpsa_main.specs.Reported.{IsRefusedLine};

use crate::answers::line_of;
use crate::deciding::decide_by;
use dtd_model::Dtd;
use io_edge::Files;
use page_decision::Goal;
use phpsa_tasks::ScriptFile;
use phpsa_texts::{Exit, Refusal};
use site_check::{Answers, Line};
use std::alloc::Global;
use text_base::{Bytes, NoMemory, behind, front};

/// What decides the scripts of a list: the root and the stubs that are given for it, if they are, a
/// definition, a goal, and a limit on the sums of a nonterminal.
#[derive(Clone, Copy)]
pub(crate) struct ByDefinition<'a> {
    pub(crate) list: ScriptFile<'a>,
    pub(crate) dtd: &'a Dtd,
    pub(crate) goal: Goal,
    pub(crate) limit: u64,
}

/// The line for a script that is refused: the status, and the text without `phpsa: ` and the line
/// end. Want of memory is no line.
fn refused_line(alloc: Global, refusal: &Refusal) -> Result<Line, NoMemory>
    ensures { IfOk result (IsRefusedLine refusal.now) }
{
    let message = match refusal {
        Refusal::Told(message) => message,
        Refusal::Memory => return Err(NoMemory),
    };
    if message.status == Exit::Memory {
        return Err(NoMemory);
    }
    let text = message.text.as_slice();
    let inner = front(behind(text, 7), text.len().saturating_sub(8));
    let text = Bytes::from_slice(alloc, inner)?;
    Ok(Line::Refused {
        status: message.status.code(),
        text,
    })
}

impl<'a> Answers for ByDefinition<'a> {
    ghost may = { λ by content name line.
        IsLineFor (table_of by.dtd.now) by.goal by.limit content
        (listed (script_file_as by.list) name) line };

    fn answer<F: Files>(&self, alloc: Global, files: &mut F, name: &str) -> Result<Line, NoMemory> {
        let file = ScriptFile {
            name,
            root: self.list.root,
            stubs: self.list.stubs,
        };
        match decide_by(alloc, file, self.dtd, self.goal, self.limit, files) {
            Ok(answer) => Ok(line_of(&answer)),
            Err(refusal) => refused_line(alloc, &refusal),
        }
    }
}
