//! The tree that a machine makes of a file. The function does nothing, and stands for the law that
//! its contract states.

ghost use Rattle.std.specs.Prelude.{◌≡◌, Some, None, nat_le, if◌then◌else◌};
ghost use Rattle.text_base.specs.declared.limits.TheConstants.{HEIGHT_LIMIT};
ghost use Rattle.script_grammar.specs.Statements.{FileForm, file_tree};
ghost use Rattle.script_grammar.specs.Rules.{file_fits};
ghost use Rattle.php_syntax.specs.Height.{file_height};
ghost use Rattle.stmt_machine.specs.Postfix.{file_actions};
ghost use Rattle.stmt_machine.specs.Made.{on_some, execute_stmts, nothing_made, file_of};

/// The actions of a file make its tree where it is at most 200 high, and nothing where it breaks a
/// rule of the language.
pub fn actions_make_files()
    ensures { (f : FileForm)
        → on_some (execute_stmts (file_actions f) nothing_made) (λ m. Some (file_of m)) ≡
        (if file_fits (file_tree f) then Some
        (if nat_le (file_height (file_tree f)) HEIGHT_LIMIT then Some (file_tree f) else None) else None) }
{
    expr_laws::actions_make_trees();
}
