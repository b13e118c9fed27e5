//! The operators between and before operands, and the levels of their precedence
//! (PHP manual, "Operator Precedence").

ghost use Rattle.std.specs.Prelude.{◌≡◌};
ghost use Rattle.script_grammar.specs.Operators as spec;
ghost use Rattle.script_grammar.specs.Operators.{binary_operator, prefix_operator, update_sign, step_sign, repeats};

use php_syntax::token::Sign;
use php_syntax::tree::{ArithSign, CompareSign, UpdateSign};

/// A level of precedence of the operators that stand between operands, from the loosest to the
/// tightest.
#[derive(Clone, Copy, Debug, PartialEq, Eq)]
pub enum Level {
    /// `||`
    Or,
    /// `&&`
    And,
    /// `==`, `!=`, `<>`, `===` and `!==`, at most one in a row
    Equality,
    /// `<`, `<=`, `>` and `>=`, at most one in a row
    Order,
    /// `.`
    Join,
    /// `+` and `-`
    Sum,
    /// `*` and `%`
    Product,
}

/// An operator between two operands.
#[derive(Clone, Copy, Debug, PartialEq, Eq)]
pub enum Operator {
    /// `||`
    Or,
    /// `&&`
    And,
    /// A comparison.
    Compare(CompareSign),
    /// `.`
    Join,
    /// An arithmetic operation.
    Arith(ArithSign),
}

/// An operator before its operand.
#[derive(Clone, Copy, Debug, PartialEq, Eq)]
pub enum Prefix {
    /// `!`
    Not,
    /// `-`
    Neg,
    /// `(int)`
    CastInt,
    /// `(string)`
    CastString,
}

/// How loosely a level binds, from 1 for the tightest to 7.
pub fn level_rank(level: Level) -> u32
    ensures { result ≡ spec.level_rank level }
{
    match level {
        Level::Product => 1,
        Level::Sum => 2,
        Level::Join => 3,
        Level::Order => 4,
        Level::Equality => 5,
        Level::And => 6,
        Level::Or => 7,
    }
}

/// Whether a level takes any number of operands in a row.
pub fn is_repeating(level: Level) -> bool
    ensures { result ≡ repeats level }
{
    match level {
        Level::Equality => false,
        Level::Order => false,
        _ => true,
    }
}

/// The operator between operands that a sign is, and its level.
pub fn binary_of(sign: Sign) -> Option<(Level, Operator)>
    ensures { result ≡ binary_operator sign }
{
    match sign {
        Sign::Or => Some((Level::Or, Operator::Or)),
        Sign::And => Some((Level::And, Operator::And)),
        Sign::Equal => Some((Level::Equality, Operator::Compare(CompareSign::Equal))),
        Sign::NotEqual => Some((Level::Equality, Operator::Compare(CompareSign::NotEqual))),
        Sign::LessGreater => Some((Level::Equality, Operator::Compare(CompareSign::NotEqual))),
        Sign::Identical => Some((Level::Equality, Operator::Compare(CompareSign::Identical))),
        Sign::NotIdentical => Some((
            Level::Equality,
            Operator::Compare(CompareSign::NotIdentical),
        )),
        Sign::Less => Some((Level::Order, Operator::Compare(CompareSign::Less))),
        Sign::LessEqual => Some((Level::Order, Operator::Compare(CompareSign::LessEqual))),
        Sign::Greater => Some((Level::Order, Operator::Compare(CompareSign::Greater))),
        Sign::GreaterEqual => Some((Level::Order, Operator::Compare(CompareSign::GreaterEqual))),
        Sign::Dot => Some((Level::Join, Operator::Join)),
        Sign::Plus => Some((Level::Sum, Operator::Arith(ArithSign::Add))),
        Sign::Minus => Some((Level::Sum, Operator::Arith(ArithSign::Sub))),
        Sign::Star => Some((Level::Product, Operator::Arith(ArithSign::Mul))),
        Sign::Percent => Some((Level::Product, Operator::Arith(ArithSign::Rem))),
        _ => None,
    }
}

/// The operator before an operand that a sign is.
pub fn prefix_of(sign: Sign) -> Option<Prefix>
    ensures { result ≡ prefix_operator sign }
{
    match sign {
        Sign::Not => Some(Prefix::Not),
        Sign::Minus => Some(Prefix::Neg),
        Sign::CastInt => Some(Prefix::CastInt),
        Sign::CastString => Some(Prefix::CastString),
        _ => None,
    }
}

/// The assignment that reads its target that a sign is.
pub fn update_of(sign: Sign) -> Option<UpdateSign>
    ensures { result ≡ update_sign sign }
{
    match sign {
        Sign::JoinAssign => Some(UpdateSign::Join),
        Sign::AddAssign => Some(UpdateSign::Add),
        Sign::SubAssign => Some(UpdateSign::Sub),
        Sign::MulAssign => Some(UpdateSign::Mul),
        Sign::RemAssign => Some(UpdateSign::Rem),
        Sign::CoalesceAssign => Some(UpdateSign::Coalesce),
        _ => None,
    }
}

/// Whether a sign steps a variable up, or down.
pub fn step_of(sign: Sign) -> Option<bool>
    ensures { result ≡ step_sign sign }
{
    match sign {
        Sign::Increment => Some(true),
        Sign::Decrement => Some(false),
        _ => None,
    }
}
