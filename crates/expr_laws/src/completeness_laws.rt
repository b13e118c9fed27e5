//! Each expression is read by the machine of `expr_machine`.
//!
//! `expressions_are_read` carries it as its contract: the terminals of a derivation, with nothing
//! behind them that could go on with it, are read as far as the derivation goes, and the actions
//! are those of the derivation. Below stand `expr_machine` and `script_grammar`.

ghost use Rattle.std.specs.Prelude.{◌≡◌, List, [], Some};
ghost use Rattle.script_grammar.specs.Terminals.{Terminal};
ghost use Rattle.script_grammar.specs.Expressions.{ExprForm, expr_terminals};
ghost use Rattle.expr_machine.specs.Postfix.{expr_actions};
ghost use Rattle.expr_machine.specs.Reading.{rank_next, expr_at};

/// Each expression that nothing goes on with is read, with its actions.
pub fn expressions_are_read()
    ensures { (e : ExprForm) (rest : List Terminal) → rank_next rest ≡ 10 →
        expr_at (expr_terminals e rest) ≡ Some (expr_actions e [], rest) }
{}
