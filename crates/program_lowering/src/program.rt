//! Programs.

ghost use Rattle.std.specs.Prelude.{◌≡◌, ◌≤◌, ◌+◌, ◌*◌, ℕ, List, length, IfOk, IfErr};
ghost use Rattle.php_syntax.specs.Height.{file_nodes};
ghost use Rattle.script_meaning.specs.Requests.{PlainRequest};
ghost use Rattle.script_meaning.specs.Runs.{Ended};
ghost use Rattle.script_meaning.specs.Meaning.{meaning};
ghost use Rattle.program_rules.specs.Limits.{as_file};
ghost use Rattle.program_rules.specs.Calls.{calls_of_program};
ghost use Rattle.program_rules.specs.View.{program_of};
ghost use Rattle.flow_code.specs.Points.{points_in};
ghost use Rattle.flow_code.specs.Flat.{flat};
ghost use Rattle.flow_code.specs.Lawful.{IsFlow};
ghost use Rattle.flow_code.specs.Runs.{FlatRun};
ghost use Rattle.flow_code.specs.View.{plain_flow};
ghost use Rattle.flow_runs.specs.Texts.{TextsFit};
ghost use Rattle.flow_runs.specs.LeftOut.{left_out};
ghost use Rattle.program_lowering.specs.Short.{HasLongText};
ghost use Rattle.expression_lowering.specs.declared.error.LoweringError.TheVariants.{LongText};

use crate::{literals_are_short, lower_functions};
use expression_lowering::LoweringError;
use flow_code::FlowProgram;
use flow_runs::{
    lawful_points_are_few, lawful_points_are_of_their_form, lawful_runs_are_runs_of_points,
    runs_of_points_are_lawful_runs,
};
use program_rules::Program;
use std::alloc::Global;

/// The points of a program (`flat` of flow_code), numbered through all its functions: at most 8 for
/// a node of the program, 4 for a function, and two for each argument that a call leaves out. Where
/// a run of the program ended, the points have a run that printed the same; and where they have one
/// that ended, the program has one within some number of units that printed the same.
///
/// Takes time linear in the program but for the look-up of names and functions, and calls itself as
/// deep as the program is high, which is at most 1,000.
///
/// # Errors
///
/// `LongText` exactly where a text literal of the program has more than 16,777,216 bytes. `Memory`
/// may come at any time.
pub fn lower(alloc: Global, program: &Program) -> Result<FlowProgram, LoweringError>
    ensures flat { IfOk result (λ flow. plain_flow flow ≡ flat (program_of program.now)) }
    ensures form { IfOk result (λ flow. IsFlow (plain_flow flow)) }
    ensures few { IfOk result (λ flow. length (points_in (plain_flow flow).functions_of)
        ≤ 8 * file_nodes (as_file (program_of program.now)) + 4 * (1 + length
        (program_of program.now).functions_of)
        + 2 * left_out (program_of program.now).functions_of
        (calls_of_program (program_of program.now))) }
    ensures runs { IfOk result (λ flow. (r : PlainRequest) (n : ℕ) (w : List ℕ) →
        meaning (program_of program.now) r n ≡ record { printed = w; end = Ended }
        → FlatRun (plain_flow flow) r w) }
    ensures back { IfOk result (λ flow. (r : PlainRequest) (w : List ℕ) → FlatRun (plain_flow flow) r w
        → (n : ℕ) × (meaning (program_of program.now) r n ≡ record { printed = w; end = Ended })) }
    ensures texts { IfOk result (λ flow. TextsFit (program_of program.now)) }
    ensures long { IfErr result (λ error. error ≡ LongText → HasLongText (program_of program.now)) }
{
    lawful_points_are_of_their_form();
    lawful_points_are_few();
    lawful_runs_are_runs_of_points();
    runs_of_points_are_lawful_runs();
    if !literals_are_short(program) {
        return Err(LoweringError::LongText);
    }
    let (main, functions) = (program.main.as_slice(), program.functions.as_slice());
    match lower_functions(alloc, main, functions) {
        Ok(functions) => Ok(FlowProgram { functions }),
        // Each text is short, so that nothing but memory was wanting.
        Err(_) => Err(LoweringError::Memory),
    }
}
