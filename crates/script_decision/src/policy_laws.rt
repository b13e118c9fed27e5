//! What a decision says of runs.

ghost use Rattle.page_policy.specs.Patterns.{Pattern as Plain};
ghost use Rattle.script_meaning.specs.Programs.{PlainProgram};
ghost use Rattle.program_rules.specs.Lawful.{IsLawful};
ghost use Rattle.flow_runs.specs.Texts.{TextsFit};
ghost use Rattle.script_decision.specs.PolicyAnswers.{EachFits, RunsFit};

use loose_soundness::run_laws::ended_runs_print_loose_pages;

/// Where each loose page of a lawful program fits a pattern, and the text literals of the program
/// are texts of a run, every run of it that ends prints a page that fits.
pub fn fitting_loose_pages_make_fitting_runs()
    ensures { (p : Plain) (program : PlainProgram) → IsLawful program → TextsFit program
        → EachFits p program → RunsFit p program }
{
    ended_runs_print_loose_pages();
}
