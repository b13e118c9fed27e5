//! Laws of the machine. The functions do nothing; each stands for the law that its contract states.

ghost use Rattle.std.specs.Prelude.{◌≡◌, ◌<◌, List};
ghost use Rattle.script_grammar.specs.Terminals.{Terminal};
ghost use Rattle.stmt_machine.specs.declared.frame.Focus.{Focus};
ghost use Rattle.stmt_machine.specs.declared.frame.Frame.{Frame};
ghost use Rattle.stmt_machine.specs.Actions.{StmtAction};
ghost use Rattle.stmt_machine.specs.Machine.{move, moves};
ghost use Rattle.stmt_machine.specs.Made.{Made};
ghost use Rattle.stmt_machine.specs.Reading.{weight, makes_on, makes_next};

/// Each move makes the weight less, so that a run ends.
pub fn moves_get_lighter()
    ensures { (f : Focus) (fs : List Frame) (ts : List Terminal) (g : Focus) (gs : List Frame)
        (r : List Terminal) (acts : List StmtAction) →
        move f fs ts ≡ moves g gs r acts → weight g gs r < weight f fs ts }
{
    expr_machine::laws::what_is_read_is_shorter();
}

/// What a run makes of what was made before is what its next move makes of it, and then the run
/// from there.
pub fn runs_go_on()
    ensures { (f : Focus) (fs : List Frame) (ts : List Terminal) (m : Made) →
        makes_on f fs ts m ≡ makes_next m (move f fs ts) }
{
    expr_machine::laws::what_is_read_is_shorter();
}
