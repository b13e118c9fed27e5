//! Runs.

ghost use Rattle.std.specs.Prelude.{◌≡◌, ℕ, IfOk};
ghost use Rattle.php_syntax.specs.Trees.{functions_of_list};
ghost use Rattle.script_meaning.specs.Meaning.{meaning};
ghost use Rattle.program_rules.specs.View.{program_of};
ghost use Rattle.script_runs.specs.Rest.{outcome};
ghost use Rattle.script_runs.specs.Moves.{IsReady};
ghost use Rattle.script_runs.specs.Frames.{plain_end};
ghost use Rattle.script_runs.specs.Outcomes.{plain_outcome};

use crate::ended::Ended;
use crate::{End, Next, Pending, Settled, go_on, settle};
use expr_evaluator::Functions;
use program_rules::Program;
use request_reading::Request;
use std::alloc::Global;
use text_base::NoMemory;
use text_base::limits::CALL_LIMIT;

// Goes on with what is next to the end of the run.
fn finish<'a>(
    alloc: Global,
    request: &Request,
    functions: &Functions<'a>,
    pending: &mut Pending<'a>,
    first: Next<'a>,
    steps: u64,
) -> Result<End, NoMemory>
    requires { IsReady pending.old first }
    ensures { IfOk result (λ end. record { printed = pending.new.printed; end = plain_end end }
        ≡ outcome request.now (functions_of_list functions.now.all.now) pending.old first.entry
        steps) }
{
    let mut next = first;
    let mut left = steps;
    loop {
        match settle(alloc, request, functions, pending, next)? {
            Settled::Over(end) => return Ok(end),
            Settled::Wants(wanted) => {
                if left == 0 {
                    return Ok(End::Spent);
                }
                left -= 1;
                next = go_on(alloc, pending, wanted)?;
            }
        }
    }
}

/// Runs a program for a request within so many units: a statement takes one, a turn of a loop one,
/// and a call of one of its functions one.
pub fn run(
    alloc: Global,
    program: &Program,
    request: &Request,
    steps: u64,
) -> Result<Ended, NoMemory>
    ensures { IfOk result
        (λ ended. plain_outcome ended ≡ meaning (program_of program.now) request.now steps) }
{
    let functions = Functions {
        all: &program.functions,
    };
    let mut pending = Pending::new(alloc, CALL_LIMIT);
    let first = Next::Block(&program.main);
    let end = finish(alloc, request, &functions, &mut pending, first, steps)?;
    Ok(Ended {
        printed: pending.printed,
        end,
    })
}
