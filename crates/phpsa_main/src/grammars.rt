//! The grammar of the pages of the script of a file.

ghost use Rattle.std.specs.Prelude.{◌≡◌};
ghost use Rattle.program_rules.specs.View.{program_of};
ghost use Rattle.program_files.specs.Source.{source_call};
ghost use Rattle.phpsa_tasks.specs.Tasks.{grammar_making};
ghost use Rattle.phpsa_tasks.specs.Views.{script_file_as};
ghost use Rattle.phpsa_tasks.specs.Results.{Does};
ghost use Rattle.phpsa_main.specs.Loaded.{HasGrammarReply};

use crate::loading::load_script;
use io_edge::Files;
use loose_grammar::{GrammarRefusal, loose_grammar};
use phpsa_tasks::{Reply, ScriptFile};
use phpsa_texts::{
    AnswerForm, PassedCount, Refusal, load_refusal, long_text_refusal, passed_message,
};
use program_rules::Program;
use std::alloc::Global;

/// What is written of the program of the file of this name, or why there is nothing to write.
fn grammar_reply(alloc: Global, name: &str, program: &Program) -> Result<Reply, Refusal>
    ensures { HasGrammarReply (program_of program.now) name.now result }
{
    match loose_grammar(alloc, program) {
        Ok(made) => Ok(Reply::Grammar(made.grammar)),
        Err(GrammarRefusal::LongText) => Err(long_text_refusal(alloc, name.as_bytes())),
        Err(GrammarRefusal::Items { count }) => {
            let passed = PassedCount::Items { count };
            let message = passed_message(alloc, AnswerForm::Plain, passed)?;
            Ok(Reply::Text(message))
        }
        Err(GrammarRefusal::Memory) => Err(Refusal::Memory),
    }
}

/// Makes the grammar of the loose pages of the script of the file, with all that it includes, which
/// is written line by line; or tells the count where the image of a string operation has over
/// 8,000,000 items.
///
/// # Errors
///
/// What is told where the program is not loaded, or a text of it is over the limit of a run; and
/// `Memory`.
pub(crate) fn make_grammar<F: Files>(
    alloc: Global,
    file: ScriptFile<'_>,
    files: &mut F,
) -> Result<Reply, Refusal>
    ensures { Does (source_call (F.content files.new) (F.faults files.old) (F.faults files.new)
        (F.misses files.old) (F.misses files.new) (F.reads files.old) (F.reads files.new))
        (grammar_making (script_file_as file.entry)) result }
{
    let program = match load_script(alloc, file, files) {
        Ok(program) => program,
        Err(refusal) => return Err(load_refusal(alloc, &refusal)),
    };
    grammar_reply(alloc, file.name, &program)
}
