//! Integer literals, and the operations of `substr`.

ghost use Rattle.std.specs.Prelude.{◌≡◌, true, false, neg_ℤ, MatchOption, Some};
ghost use Rattle.php_syntax.specs.Trees.{plain_expr};
ghost use Rattle.flow_code.specs.Builtins.{literal_integer, is_small, cutting_from, cutting_out};
ghost use Rattle.expression_lowering.specs.Small.{IsNotSmall, IsSmall};

use op_system::Op;
use php_syntax::tree::Expr;
use script_meaning::{literal_negative, literal_number};

// Whether a machine is made for cuts by the number.
fn is_small_number(number: i64) -> bool
    ensures { result ≡ is_small number }
{
    number.unsigned_abs() <= 1024
}

// The number, where a machine is made for it.
fn kept(number: i64) -> Option<i64>
    ensures { MatchOption result (is_small number ≡ false)
        (λ z. (z ≡ number) × (is_small number ≡ true)) }
{
    if is_small_number(number) {
        Some(number)
    } else {
        None
    }
}

// The number with its sign turned, where a machine is made for it.
fn kept_turned(number: i64) -> Option<i64>
    ensures { MatchOption result (is_small (neg_ℤ number) ≡ false)
        (λ z. (z ≡ neg_ℤ number) × (is_small (neg_ℤ number) ≡ true)) }
{
    match number.checked_neg() {
        Some(turned) => kept(turned),
        None => None,
    }
}

// An integer literal, or `-` and one, that a machine is made for.
#[tactic(auto, using(crate::proofs::SmallLemmas::no_integer), unfolding(flow_code::specs::Builtins::literal_integer))]
fn small_integer(expr: &Expr) -> Option<i64>
    ensures { MatchOption result (IsNotSmall (literal_integer (plain_expr expr.now)))
        (λ z. IsSmall (literal_integer (plain_expr expr.now)) z) }
{
    if let Some(number) = literal_negative(expr) {
        return kept_turned(number);
    }
    match literal_number(expr) {
        Some(number) => kept(number),
        None => None,
    }
}

/// The operation of `substr` from a start on.
pub(crate) fn cut_from(start: &Expr) -> Op
    ensures { result ≡ cutting_from (literal_integer (plain_expr start.now)) }
{
    match small_integer(start) {
        Some(start) => Op::Cut { start, len: None },
        None => Op::Factor,
    }
}

/// The operation of `substr` from a start on, of a length.
pub(crate) fn cut_out(start: &Expr, len: &Expr) -> Op
    ensures { result ≡ cutting_out (literal_integer (plain_expr start.now))
        (literal_integer (plain_expr len.now)) }
{
    let Some(start) = small_integer(start) else {
        return Op::Factor;
    };
    match small_integer(len) {
        Some(len) => Op::Cut {
            start,
            len: Some(len),
        },
        None => Op::Factor,
    }
}
