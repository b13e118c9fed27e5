//! A generated script is decided.

ghost use Rattle.std.specs.Prelude.{◌≡◌, ℕ};
ghost use Rattle.program_files.specs.Source.{SourceCall, source_call};
ghost use Rattle.document_types.specs.DocumentTypes.{strict_type};
ghost use Rattle.page_decision.specs.declared.goal.Goal.TheVariants.{Valid};
ghost use Rattle.command_words.specs.declared.values.TheConstants as words;
ghost use Rattle.phpsa_tasks.specs.Tasks.{made_check};
ghost use Rattle.phpsa_tasks.specs.Subjects.{made_file, only_script};
ghost use Rattle.phpsa_tasks.specs.Counted.{ReadsNothing};
ghost use Rattle.phpsa_tasks.specs.Results.{Does};
ghost use Rattle.phpsa_main.specs.Decided.{Decides};

use crate::answers::conclusion_of;
use crate::deciding::decide_script;
use command_words::PAIR_LIMIT;
use document_types::{DocumentType, OneFile};
use page_decision::Goal;
use phpsa_tasks::{Reply, ScriptFile};
use phpsa_texts::{Refusal, size_refusal, summary_message};
use script_decision::ShownAnswer;
use script_maker::{MakeRefusal, make};
use std::alloc::Global;
use text_base::{Bytes, NoMemory};

/// The name of a generated script, where it is loaded.
const MADE_NAME: &str = "made.php";

/// The answer for this script, by the built-in definition.
fn decided(alloc: Global, script: Bytes) -> Result<ShownAnswer, Refusal>
    ensures { (misses reads : ℕ) × Decides (source_call (only_script script) 0 0 0 misses 0 reads)
        made_file strict_type Valid words.PAIR_LIMIT result }
{
    let mut files = OneFile {
        name: MADE_NAME,
        text: script,
        misses: 0,
        reads: 0,
    };
    let file = ScriptFile {
        name: MADE_NAME,
        root: None,
        stubs: None,
    };
    decide_script(
        alloc,
        file,
        DocumentType::Strict,
        Goal::Valid,
        u64::from(PAIR_LIMIT),
        &mut files,
    )
}

/// Decides the generated script with so many functions, by the built-in definition: how many
/// functions and bytes it has and how it is decided, and the status of that. It reads no file,
/// whatever source there is.
///
/// # Errors
///
/// What is told where a script cannot have so many functions, which are 0 or over 1,000, and where
/// the script is refused, as the file `made.php`; and `Memory`.
pub(crate) fn check_made(alloc: Global, functions: u32) -> Result<Reply, Refusal>
    ensures { (files : SourceCall) → ReadsNothing files → files.faults' ≡ files.faults
        → Does files (made_check functions) result }
{
    let script = match make(alloc, functions) {
        Ok(script) => script,
        Err(MakeRefusal::Size { functions }) => return Err(size_refusal(alloc, functions)),
        Err(MakeRefusal::Memory) => return Err(Refusal::Memory),
    };
    let bytes = script.len() as u64;
    let answer = match decided(alloc, script) {
        Ok(answer) => answer,
        Err(refusal) => return Err(refusal),
    };
    match summary_message(alloc, u64::from(functions), bytes, conclusion_of(&answer)) {
        Ok(message) => Ok(Reply::Text(message)),
        Err(NoMemory) => Err(Refusal::Memory),
    }
}
