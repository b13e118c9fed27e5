//! The answer: first whether there is a page that is not good, then whether a shorter one is not.

ghost use Rattle.std.specs.Prelude.{IfOk, IfErr};
ghost use Rattle.dtd_model.specs.TableOf.{table_of};
ghost use Rattle.program_rules.specs.View.{program_of};
ghost use Rattle.script_decision.specs.Decision.{IsCheckRefusal};
ghost use Rattle.script_decision.specs.Shown.{IsShownCounterexample};
ghost use Rattle.script_decision.specs.ShortestAnswers.{IsShortestAnswer};
ghost use Rattle.script_decision.specs.ShortestAnswers as spec;

use crate::refusal::CheckRefusal;
use crate::shortest_answer::ShortestAnswer;
use crate::shortest_below::Below;
use crate::shortest_deciding::search;
use crate::shortest_searching::pages_below;
use crate::showing_answers::check_shown;
use crate::showing_pages::ShownPage;
use crate::shown::ShownAnswer;
use dtd_model::Dtd;
use page_decision::Goal;
use program_rules::Program;
use std::alloc::Global;

/// The answer where a page is known that is not good.
fn shortest_from(
    alloc: Global,
    program: &Program,
    dtd: &Dtd,
    goal: Goal,
    pairs: u64,
    known: ShownPage,
) -> Result<ShortestAnswer, CheckRefusal>
    requires { IsShownCounterexample goal (table_of dtd.now) (program_of program.now) known }
    ensures answer { IfOk result
        (IsShortestAnswer goal (table_of dtd.now) (program_of program.now) pairs) }
    ensures sound { IfOk result (spec.SaysOfRuns goal (table_of dtd.now) (program_of program.now)) }
    ensures refusal { IfErr result (IsCheckRefusal (table_of dtd.now) (program_of program.now)) }
{
    let length = known.length;
    if length == 0 {
        return Ok(ShortestAnswer::No(known));
    }
    match pages_below(alloc, program, dtd, goal, pairs, length - 1) {
        Ok(Below::Good) => Ok(ShortestAnswer::No(known)),
        Ok(Below::Bad(page)) => Ok(ShortestAnswer::No(page)),
        Ok(Below::Open) => search(alloc, program, dtd, goal, pairs),
        Err(refusal) => Err(refusal),
    }
}

/// Whether each loose page of the program is good by the goal and the definition, and what is shown
/// of a shortest one that is not, with at most `pairs` different sums of sentences a nonterminal. A
/// yes says that each run that ends prints a good page, for every admitted request and every number
/// of units.
///
/// # Errors
///
/// `LongText` only where a text literal of the program has over 16,777,216 bytes; `Limit` only
/// where the content models of the definition pass a limit. `Memory` may come at any time.
pub fn check_shortest(
    alloc: Global,
    program: &Program,
    dtd: &Dtd,
    goal: Goal,
    pairs: u64,
) -> Result<ShortestAnswer, CheckRefusal>
    ensures answer { IfOk result
        (IsShortestAnswer goal (table_of dtd.now) (program_of program.now) pairs) }
    ensures sound { IfOk result (spec.SaysOfRuns goal (table_of dtd.now) (program_of program.now)) }
    ensures refusal { IfErr result (IsCheckRefusal (table_of dtd.now) (program_of program.now)) }
{
    match check_shown(alloc, program, dtd, goal, pairs) {
        Ok(ShownAnswer::Yes) => Ok(ShortestAnswer::Yes),
        Ok(ShownAnswer::No(page)) => shortest_from(alloc, program, dtd, goal, pairs, page),
        Ok(_) => search(alloc, program, dtd, goal, pairs),
        Err(refusal) => Err(refusal),
    }
}
