//! Each file is read by the machine of `stmt_machine`.
//!
//! `files_are_read` carries it as its contract: the terminals of a derivation in which each `else`
//! belongs to the nearest `if` are read to their end, and the actions are those of the derivation.
//! Below stand `stmt_machine`, `expr_laws`, `expr_machine` and `script_grammar`.

ghost use Rattle.std.specs.Prelude.{◌≡◌, true, Some};
ghost use Rattle.script_grammar.specs.Statements.{FileForm, file_terminals, file_nearest};
ghost use Rattle.stmt_machine.specs.Postfix.{file_actions};
ghost use Rattle.stmt_machine.specs.Reading.{file_at};

/// Each file is read, with its actions.
pub fn files_are_read()
    ensures { (f : FileForm) → file_nearest f ≡ true → file_at (file_terminals f)
        ≡ Some (file_actions f) }
{
    expr_laws::expressions_are_read();
    expr_machine::laws::what_is_read_is_shorter();
}
