//! What a reader of expressions makes.

ghost use Rattle.std.specs.Prelude.{◌≡◌, Option, Some, None, MatchOption};
ghost use Rattle.php_syntax.specs.Trees.{plain_expr};
ghost use Rattle.expr_machine.specs.Values as plain;
ghost use Rattle.expr_builder.specs.Views.{plain_value, one_known, known_both, both_shown};

use php_syntax::tree::Expr;
use script_grammar::shapes::is_place;

/// A value of a reader.
#[derive(Debug, Drop)]
pub enum Value {
    /// A tree and its height, at most 200.
    Known { tree: Expr, height: u32 },
    /// A tree that is higher and was not kept; and whether it is a variable with subscripts.
    Tall { place: bool },
    /// A key that is left out.
    Absent,
}

impl Value {
    /// Whether this is a variable with subscripts.
    pub(crate) fn is_place(&self) -> bool
        ensures { result ≡ plain.is_place_value (plain_value self.now) }
    {
        match self {
            Value::Known { tree, .. } => is_place(tree),
            Value::Tall { place } => *place,
            Value::Absent => false,
        }
    }

    /// Whether this is a key that is left out.
    pub(crate) fn is_absent(&self) -> bool
        ensures { result ≡ plain.is_absent (plain_value self.now) }
    {
        match self {
            Value::Known { .. } => false,
            Value::Tall { .. } => false,
            Value::Absent => true,
        }
    }

    /// The tree and its height, where they are kept.
    pub(crate) fn known(self) -> Option<(Expr, u32)>
        ensures { MatchOption result
            (one_known (plain_value self) ≡ None)
            (λ known. plain_value self ≡ plain.known_value (plain_expr known.0) known.1) }
    {
        match self {
            Value::Known { tree, height } => Some((tree, height)),
            Value::Tall { .. } => None,
            Value::Absent => None,
        }
    }
}

/// Two trees and the height of the higher one, where both are kept.
pub(crate) fn both_known(left: Value, right: Value) -> Option<(Expr, Expr, u32)>
    ensures { known_both (plain_value left) (plain_value right) ≡ both_shown result }
{
    match left.known() {
        None => None,
        Some((left, height)) => match right.known() {
            None => None,
            Some((right, other)) => Some((left, right, height.max(other))),
        },
    }
}
