//! What the machine of `stmt_machine` reads is a file of `script_grammar`. The function does
//! nothing of its own, and stands for the law that its contract states.

ghost use Rattle.std.specs.Prelude.{◌≡◌, true, List, Some};
ghost use Rattle.script_grammar.specs.Terminals.{Terminal};
ghost use Rattle.script_grammar.specs.Statements.{FileForm, file_terminals, file_nearest};
ghost use Rattle.stmt_machine.specs.Actions.{StmtAction};
ghost use Rattle.stmt_machine.specs.Postfix.{file_actions};
ghost use Rattle.stmt_machine.specs.Reading.{file_at};

/// What the machine reads is a file, with its actions.
pub fn what_is_read_is_a_file()
    ensures { (ts : List Terminal) (acts : List StmtAction) → file_at ts ≡ Some acts →
        (f : FileForm) × (file_terminals f ≡ ts) × (file_nearest f ≡ true)
        × (file_actions f ≡ acts) }
{
    expr_laws::what_is_read_is_an_expression();
}
