//! What a decision says of runs.

ghost use Rattle.dtd_model.specs.Table.{Table};
ghost use Rattle.script_meaning.specs.Programs.{PlainProgram};
ghost use Rattle.program_rules.specs.Lawful.{IsLawful};
ghost use Rattle.flow_runs.specs.Texts.{TextsFit};
ghost use Rattle.page_decision.specs.declared.goal.Goal as goals;
ghost use Rattle.script_decision.specs.Answers.{EachIsGood, RunsAreGood};

use loose_soundness::run_laws::ended_runs_print_loose_pages;

/// Where each loose page of a lawful program is good, whose text literals are texts of a run, every
/// run of it that ends prints a good page.
pub fn good_loose_pages_make_good_runs()
    ensures { (goal : goals.Goal) (table : Table) (program : PlainProgram) → IsLawful program
        → TextsFit program
        → EachIsGood goal table program → RunsAreGood goal table program }
{
    ended_runs_print_loose_pages();
}
