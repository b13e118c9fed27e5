//! How loose expressions and operations are.

ghost use Rattle.std.specs.Prelude.{◌≡◌};
ghost use Rattle.php_syntax.specs.Trees.{plain_expr, exprs_of};
ghost use Rattle.php_writer.specs.Written as written;

use php_syntax::token::Sign;
use php_syntax::tree::{ArithSign, CompareSign, Expr, UpdateSign};
use script_grammar::keyword::Keyword;

/// An operation between two operands: how loose the first may be, its sign, and how loose the
/// second may be.
#[derive(Clone, Copy, Debug, PartialEq, Eq)]
pub struct Infix {
    pub left: u8,
    pub sign: Sign,
    pub right: u8,
}

/// `&&`
pub const AND: Infix = Infix {
    left: 8,
    sign: Sign::And,
    right: 7,
};

/// `||`
pub const OR: Infix = Infix {
    left: 9,
    sign: Sign::Or,
    right: 8,
};

/// `??`
pub const COALESCE: Infix = Infix {
    left: 9,
    sign: Sign::Coalesce,
    right: 10,
};

/// An arithmetic operation.
pub fn arithmetic(sign: ArithSign) -> Infix
    ensures left { result.left ≡ written.arith_looseness sign }
    ensures sign { result.sign ≡ written.arith_sign sign }
    ensures right { result.right ≡ written.arith_side sign }
{
    let (left, sign, right) = match sign {
        ArithSign::Add => (4, Sign::Plus, 3),
        ArithSign::Sub => (4, Sign::Minus, 3),
        ArithSign::Mul => (3, Sign::Star, 2),
        ArithSign::Rem => (3, Sign::Percent, 2),
    };
    Infix { left, sign, right }
}

/// A comparison.
pub fn comparison(sign: CompareSign) -> Infix
    ensures left { result.left ≡ written.compare_side sign }
    ensures sign { result.sign ≡ written.compare_sign sign }
    ensures right { result.right ≡ written.compare_side sign }
{
    let (side, sign) = match sign {
        CompareSign::Equal => (6, Sign::Equal),
        CompareSign::NotEqual => (6, Sign::NotEqual),
        CompareSign::Identical => (6, Sign::Identical),
        CompareSign::NotIdentical => (6, Sign::NotIdentical),
        CompareSign::Less => (5, Sign::Less),
        CompareSign::LessEqual => (5, Sign::LessEqual),
        CompareSign::Greater => (5, Sign::Greater),
        CompareSign::GreaterEqual => (5, Sign::GreaterEqual),
    };
    Infix {
        left: side,
        sign,
        right: side,
    }
}

/// The sign of an assignment that reads its target first.
#[tactic(auto, unfolding(crate::specs::Written::sign_of_update))]
pub fn update_sign(sign: UpdateSign) -> Sign
    ensures { result ≡ written.sign_of_update sign }
{
    match sign {
        UpdateSign::Join => Sign::JoinAssign,
        UpdateSign::Add => Sign::AddAssign,
        UpdateSign::Sub => Sign::SubAssign,
        UpdateSign::Mul => Sign::MulAssign,
        UpdateSign::Rem => Sign::RemAssign,
        UpdateSign::Coalesce => Sign::CoalesceAssign,
    }
}

/// The sign that steps a variable up or down.
pub fn step_sign(up: bool) -> Sign
    ensures { result ≡ written.sign_of_step up }
{
    if up { Sign::Increment } else { Sign::Decrement }
}

/// The word of a truth value.
pub fn flag_word(flag: bool) -> Keyword
    ensures { result ≡ written.flag_word flag }
{
    if flag { Keyword::True } else { Keyword::False }
}

// How loose a comparison is.
fn comparison_looseness(sign: CompareSign) -> u8
    ensures { result ≡ written.compare_looseness sign }
{
    match sign {
        CompareSign::Less
        | CompareSign::LessEqual
        | CompareSign::Greater
        | CompareSign::GreaterEqual => 6,
        _ => 7,
    }
}

// How loose a join is: a chain of `.`, or a template.
#[tactic(auto, using(crate::proofs::RustLemmas::join_looseness_is, crate::proofs::RustLemmas::template_looseness_is))]
fn join_looseness(parts: &[Expr]) -> u8
    ensures { result ≡ written.join_looseness (exprs_of parts.now) }
{
    if parts.len() < 2 { 1 } else { 5 }
}

/// How loose an expression is.
#[tactic(auto, using(php_syntax::proofs::Views::views))]
pub fn looseness(expr: &Expr) -> u8
    ensures { result ≡ written.looseness (plain_expr expr.now) }
{
    match expr {
        Expr::Var(_) | Expr::Super(_) | Expr::Member(..) | Expr::Call(..) => 0,
        Expr::Null | Expr::Flag(_) | Expr::Int(_) | Expr::Text(_) => 1,
        Expr::ArrayOf(_) | Expr::Isset(_) | Expr::Empty(_) | Expr::Step { .. } => 1,
        Expr::Join(parts) => join_looseness(parts.as_slice()),
        Expr::Neg(_) | Expr::Not(_) => 2,
        Expr::Arith(sign, ..) => arithmetic(*sign).left,
        Expr::Compare(sign, ..) => comparison_looseness(*sign),
        Expr::And(..) => 8,
        Expr::Or(..) => 9,
        Expr::Coalesce(..) => 10,
        Expr::Choice(..) => 11,
        Expr::Assign(..) | Expr::Update(..) => 12,
    }
}
