//! What a visitor is.

ghost use Rattle.std.specs.Prelude.{◌≡◌, OnOk};
ghost use Rattle.php_syntax.specs.Trees.{PlainExpr, var_expr, plain_expr};

use php_syntax::tree::Expr;
use text_base::Bytes;

/// Is handed expressions, and the variables that a `foreach` sets, one after the other.
pub trait Visitor {
    /// Why it may stop.
    type Stop;

    /// What is known of it between two expressions.
    ghost State: { Type 0 };

    /// What is known of it as it is.
    ghost state: { Self → State };

    /// What is known of it behind one more expression.
    ghost next: { State → PlainExpr → State };

    /// Takes what it wants of an expression itself, and nothing of its parts.
    fn visit(&mut self, expr: &Expr) -> Result<(), Self::Stop>
        ensures { OnOk result (state self.new ≡ next (state self.old) (plain_expr expr.now)) };

    /// Takes what it wants of a variable that a `foreach` sets: of its key or its value.
    fn visit_variable(&mut self, name: &Bytes) -> Result<(), Self::Stop>
        ensures { OnOk result (state self.new ≡ next (state self.old) (var_expr name.now)) };
}
