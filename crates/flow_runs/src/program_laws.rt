//! Laws of the points of lawful programs.

ghost use Rattle.std.specs.Prelude.{◌≡◌, ◌≤◌, ◌+◌, ◌*◌, ℕ, List, length};
ghost use Rattle.php_syntax.specs.Height.{file_nodes};
ghost use Rattle.script_meaning.specs.Requests.{PlainRequest};
ghost use Rattle.script_meaning.specs.Runs.{Ended};
ghost use Rattle.script_meaning.specs.Programs.{PlainProgram};
ghost use Rattle.script_meaning.specs.Meaning.{meaning};
ghost use Rattle.program_rules.specs.Limits.{as_file};
ghost use Rattle.program_rules.specs.Calls.{calls_of_program};
ghost use Rattle.program_rules.specs.Lawful.{IsLawful};
ghost use Rattle.flow_code.specs.Points.{points_in};
ghost use Rattle.flow_code.specs.Flat.{flat};
ghost use Rattle.flow_code.specs.Lawful.{IsFlow};
ghost use Rattle.flow_code.specs.Runs.{FlatRun};
ghost use Rattle.flow_runs.specs.Texts.{TextsFit};
ghost use Rattle.flow_runs.specs.LeftOut.{left_out};

use crate::{
    ended_runs_are_runs_of_points, points_are_of_their_form, runs_of_points_are_ended_runs,
};

/// Where a run of a lawful program ended, its points have a run that printed the same.
pub fn lawful_runs_are_runs_of_points()
    ensures { (program : PlainProgram) (r : PlainRequest) (n : ℕ) (w : List ℕ) → IsLawful program →
        meaning program r n ≡ record { printed = w; end = Ended } → FlatRun (flat program) r w }
{
    ended_runs_are_runs_of_points();
}

/// Where the points of a lawful program have a run that ended, the run of the program ended within
/// some number of units, and printed the same.
pub fn runs_of_points_are_lawful_runs()
    ensures { (program : PlainProgram) (r : PlainRequest) (w : List ℕ) → IsLawful program →
        FlatRun (flat program) r w
        → (n : ℕ) × (meaning program r n ≡ record { printed = w; end = Ended }) }
{
    runs_of_points_are_ended_runs();
}

/// The points of a lawful program keep what is asked of points, where its texts are texts of a run.
pub fn lawful_points_are_of_their_form()
    ensures { (program : PlainProgram) → IsLawful program → TextsFit program
        → IsFlow (flat program) }
{
    points_are_of_their_form();
}

/// A lawful program has at most 8 points for a node, 4 for a function, and two for each argument
/// that a call leaves out.
pub fn lawful_points_are_few()
    ensures { (program : PlainProgram) → IsLawful program →
        length (points_in (flat program).functions_of)
        ≤ 8 * file_nodes (as_file program) + 4 * (1 + length program.functions_of)
        + 2 * left_out program.functions_of (calls_of_program program) }
{}
