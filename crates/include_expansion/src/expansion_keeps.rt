//! What statements keep where their includes are replaced. Each function stands for the law that
//! its contract states.

ghost use Rattle.std.specs.Prelude.{◌≡◌, ℕ, List, true, false, Bool};
ghost use Rattle.std.specs.List.{Contains};
ghost use Rattle.php_syntax.specs.Trees.{PlainStmts};
ghost use Rattle.spellable.specs.Spellable.{stmts_spellable};
ghost use Rattle.script_grammar.specs.Rules.{stmts_fit};
ghost use Rattle.program_rules.specs.Calls.{PlainCall, calls_of_program};
ghost use Rattle.program_rules.specs.Programs.{ReadFile};
ghost use Rattle.include_expansion.specs.Within.{tree_named, program_within};
ghost use Rattle.program_rules.specs.Bodies.{with_bodies};
ghost use Rattle.include_expansion.specs.FileCalls.{calls_in_files};

/// Each call of a program is a call in one of its files.
pub fn calls_are_in_files()
    ensures { (files : List ReadFile) (n : ℕ) (name : List ℕ) (call : PlainCall) →
        Contains (calls_of_program (program_within files n (tree_named files name))) call
        → Contains (calls_in_files files) call }
{}

/// Statements keep the rules beside the grammar, in a loop or not and in a function or not, where
/// what stands for their includes keeps them outside both.
pub fn rules_are_kept()
    ensures { (bodies : List ℕ → PlainStmts) (in_loop in_function : Bool) (ss : PlainStmts) →
        ((path : List ℕ) → stmts_fit false false (bodies path) ≡ true)
        → stmts_fit in_loop in_function ss ≡ true →
        stmts_fit in_loop in_function (with_bodies bodies ss) ≡ true }
{}

/// And have the forms of the grammar.
pub fn forms_are_kept()
    ensures { (bodies : List ℕ → PlainStmts) (ss : PlainStmts) →
        ((path : List ℕ) → stmts_spellable (bodies path) ≡ true) → stmts_spellable ss ≡ true
        → stmts_spellable (with_bodies bodies ss) ≡ true }
{}
