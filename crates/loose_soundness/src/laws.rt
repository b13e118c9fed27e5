//! The law.

ghost use Rattle.std.specs.Prelude.{ℕ, List};
ghost use Rattle.script_meaning.specs.Requests.{PlainRequest, Admitted};
ghost use Rattle.flow_code.specs.Points.{PlainFlow};
ghost use Rattle.flow_code.specs.Lawful.{IsFlow};
ghost use Rattle.flow_code.specs.Runs.{FlatRun};
ghost use Rattle.loose_sets.specs.Loose.{Loose};

/// For every admitted request, what a run of points prints is a loose page of them.
pub fn ended_runs_print_loose_pages()
    ensures { (flow : PlainFlow) (r : PlainRequest) (printed : List ℕ) → IsFlow flow → Admitted r
        → FlatRun flow r printed → Loose flow printed }
{}
