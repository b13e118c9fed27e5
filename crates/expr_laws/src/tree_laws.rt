//! The tree that a machine makes of an expression. The function does nothing, and stands for the
//! law that its contract states.

ghost use Rattle.std.specs.Prelude.{◌≡◌, ◌∷◌, List, None, if◌then◌else◌};
ghost use Rattle.script_grammar.specs.Expressions.{ExprForm, expr_tree};
ghost use Rattle.script_grammar.specs.Rules.{expr_fits};
ghost use Rattle.expr_machine.specs.Actions.{Action};
ghost use Rattle.expr_machine.specs.Postfix.{expr_actions};
ghost use Rattle.expr_machine.specs.Values.{PlainValue, value_of_tree, execute};

/// The actions of an expression make the value of its tree, and nothing where the tree breaks a
/// rule of the language.
pub fn actions_make_trees()
    ensures { (e : ExprForm) (acts : List Action) (vs : List PlainValue) →
        execute (expr_actions e acts) vs
        ≡ (if expr_fits (expr_tree e) then execute acts (value_of_tree (expr_tree e) ∷ vs)
        else None) }
{}
