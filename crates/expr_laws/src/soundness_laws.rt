//! What the machine of `expr_machine` reads is an expression of `script_grammar`. The function does
//! nothing, and stands for the law that its contract states.

ghost use Rattle.std.specs.Prelude.{◌≡◌, List, [], Some};
ghost use Rattle.script_grammar.specs.Terminals.{Terminal};
ghost use Rattle.script_grammar.specs.Expressions.{ExprForm, expr_terminals};
ghost use Rattle.expr_machine.specs.Actions.{Action};
ghost use Rattle.expr_machine.specs.Postfix.{expr_actions};
ghost use Rattle.expr_machine.specs.Reading.{expr_at};

/// What the machine reads is an expression, with its actions.
pub fn what_is_read_is_an_expression()
    ensures { (ts rest : List Terminal) (acts : List Action) → expr_at ts ≡ Some (acts, rest) →
        (e : ExprForm) × (expr_terminals e rest ≡ ts) × (expr_actions e [] ≡ acts) }
{}
