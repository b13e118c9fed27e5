//! From a program to what is shown.

ghost use Rattle.std.specs.Prelude.{ℕ, IfOk, IfErr};
ghost use Rattle.dtd_model.specs.Table.{Table};
ghost use Rattle.dtd_model.specs.TableOf.{table_of};
ghost use Rattle.page_decision.specs.declared.goal.Goal as goals;
ghost use Rattle.program_rules.specs.View.{program_of};
ghost use Rattle.script_meaning.specs.Programs.{PlainProgram};
ghost use Rattle.script_decision.specs.Answers.{SaysOfRuns};
ghost use Rattle.script_decision.specs.Decision.{IsAnswerOf, IsCheckRefusal};
ghost use Rattle.script_decision.specs.Shown.{IsShownAnswer, ShownSaysOfRuns};

use crate::shown::ShownAnswer;
use crate::{Answer, CheckRefusal, check, show_page};
use dtd_model::Dtd;
use page_decision::Goal;
use program_rules::Program;
use std::alloc::Global;
use text_base::NoMemory;

/// An answer as it is shown.
fn show(alloc: Global, answer: Answer) -> Result<ShownAnswer, NoMemory>
    ensures answer { IfOk result
        (λ shown. (goal : goals.Goal) (table : Table) (program : PlainProgram) (limit : ℕ)
        → IsAnswerOf goal table program limit answer → IsShownAnswer goal table program limit shown) }
    ensures runs { IfOk result
        (λ shown. (goal : goals.Goal) (table : Table) (program : PlainProgram)
        → SaysOfRuns goal table program answer → ShownSaysOfRuns goal table program shown) }
{
    Ok(match answer {
        Answer::Yes => ShownAnswer::Yes,
        Answer::No(derivation) => ShownAnswer::No(show_page(alloc, &derivation)?),
        Answer::Pairs { count, height } => ShownAnswer::Pairs { count, height },
        Answer::Tags { count, height } => ShownAnswer::Tags { count, height },
        Answer::Items { count } => ShownAnswer::Items { count },
    })
}

/// Whether each loose page of the program is good by the goal and the definition, with at most
/// `pairs` different sums of sentences a nonterminal, as it is shown. A yes says that each run that
/// ends prints a good page, for every admitted request and every number of units.
///
/// # Errors
///
/// `LongText` only where a text literal of the program has over 16,777,216 bytes; `Limit` only
/// where the content models of the definition pass a limit. `Memory` may come at any
/// time.
pub fn check_shown(
    alloc: Global,
    program: &Program,
    dtd: &Dtd,
    goal: Goal,
    pairs: u64,
) -> Result<ShownAnswer, CheckRefusal>
    ensures answer { IfOk result
        (IsShownAnswer goal (table_of dtd.now) (program_of program.now) pairs) }
    ensures sound { IfOk result (ShownSaysOfRuns goal (table_of dtd.now) (program_of program.now)) }
    ensures refusal { IfErr result (IsCheckRefusal (table_of dtd.now) (program_of program.now)) }
{
    let answer = match check(alloc, program, dtd, goal, pairs) {
        Ok(answer) => answer,
        Err(refusal) => return Err(refusal),
    };
    match show(alloc, answer) {
        Ok(shown) => Ok(shown),
        Err(_) => Err(CheckRefusal::Memory),
    }
}
