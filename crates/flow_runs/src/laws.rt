//! Laws of the points.

ghost use Rattle.std.specs.Prelude.{◌≡◌, ℕ, List};
ghost use Rattle.script_meaning.specs.Requests.{PlainRequest};
ghost use Rattle.script_meaning.specs.Runs.{Ended};
ghost use Rattle.script_meaning.specs.Programs.{PlainProgram};
ghost use Rattle.script_meaning.specs.Meaning.{meaning};
ghost use Rattle.flow_code.specs.Flat.{flat};
ghost use Rattle.flow_code.specs.Lawful.{IsFlow};
ghost use Rattle.flow_code.specs.Runs.{FlatRun};
ghost use Rattle.flow_runs.specs.Defaults.{HaveDefaults};
ghost use Rattle.flow_runs.specs.Fits.{ProgramFits};
ghost use Rattle.flow_runs.specs.Keyed.{ProgramKeyed};

/// Where a run of a program ended, the points of the program have a run that printed the same.
pub fn ended_runs_are_runs_of_points()
    ensures { (program : PlainProgram) (r : PlainRequest) (n : ℕ) (w : List ℕ)
        → HaveDefaults program.functions_of →
        meaning program r n ≡ record { printed = w; end = Ended } → FlatRun (flat program) r w }
{}

/// Where the points of a program have a run that ended, a run of the program ended within some
/// number of units, and printed the same.
pub fn runs_of_points_are_ended_runs()
    ensures { (program : PlainProgram) (r : PlainRequest) (w : List ℕ)
        → HaveDefaults program.functions_of → ProgramKeyed program → FlatRun (flat program) r w
        → (n : ℕ) × (meaning program r n ≡ record { printed = w; end = Ended }) }
{}

/// The points of a program keep what is asked of points.
pub fn points_are_of_their_form()
    ensures { (program : PlainProgram) → HaveDefaults program.functions_of → ProgramFits program
        → IsFlow (flat program) }
{}
