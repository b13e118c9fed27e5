//! Laws of the machine. The functions do nothing; each stands for the law that its contract states.

ghost use Rattle.std.specs.Prelude.{◌≡◌, ◌<◌, List, length, Some};
ghost use Rattle.script_grammar.specs.Terminals.{Terminal};
ghost use Rattle.expr_machine.specs.declared.frame.Focus.{Focus};
ghost use Rattle.expr_machine.specs.declared.frame.Frame.{Frame};
ghost use Rattle.expr_machine.specs.Actions.{Action};
ghost use Rattle.expr_machine.specs.Machine.{move, moves};
ghost use Rattle.expr_machine.specs.Values.{PlainValue};
ghost use Rattle.expr_machine.specs.Reading.{weight, expr_at, reads_on, reads_next};

/// Each move makes the weight less, so that a run ends.
pub fn moves_get_lighter()
    ensures { (f : Focus) (fs : List Frame) (ts : List Terminal) (g : Focus) (gs : List Frame)
        (r : List Terminal) (acts : List Action) →
        move f fs ts ≡ moves g gs r acts → weight g gs r < weight f fs ts }
{}

/// What a run makes of the values is what its next move makes of them, and then the run from there.
pub fn runs_go_on()
    ensures { (f : Focus) (fs : List Frame) (ts : List Terminal) (vs : List PlainValue) →
        reads_on f fs ts vs ≡ reads_next ts vs (move f fs ts) }
{}

/// Fewer terminals stand behind an expression than at its beginning.
pub fn what_is_read_is_shorter()
    ensures { (ts : List Terminal) (acts : List Action) (r : List Terminal) → expr_at ts
        ≡ Some (acts, r) → length r < length ts }
{}
