//! Integer literals, and the float literals that are refused.

ghost use Rattle.std.specs.Prelude.{◌≡◌, ◌<◌, ◌≤◌, ◌==◌, ◌||◌, pos, IfSome, IfNone, OnSome, Some, length, IsTrue};
ghost use Rattle.lexical_grammar.specs.Characters as chars;
ghost use Rattle.lexical_grammar.specs.Words as spec;
ghost use Rattle.php_lexer.specs.View.{maybe_step, IsWithin};

use crate::scan::{begins, behind, digits_length, front, head_is_digit, head_is_name_byte};
use crate::step::{Mode, Step};
use lexical_grammar::fault::LexicalFault;
use php_syntax::token::TokenKind;

/// The largest integer of the language.
const LARGEST: u64 = 9_223_372_036_854_775_807;

/// The number that the digits stand for; None where it is over the largest integer.
#[tactic(auto, using(crate::proofs::ValueLemmas::value_of_take))]
pub fn value_of(digits: &[u8]) -> Option<i64>
    ensures some { IfSome result (λ n. n ≡ pos (chars.value_of digits.now)) }
    ensures none { IfNone result (chars.largest < chars.value_of digits.now) }
    ensures small { OnSome result (chars.value_of digits.now ≤ chars.largest) }
{
    let mut n: u64 = 0;
    for digit in digits {
        if n > LARGEST / 10 {
            return None;
        }
        n = 10 * n + u64::from(digit.saturating_sub(48));
        if n > LARGEST {
            return None;
        }
    }
    Some(n as i64)
}

fn head_is_exponent_letter(bytes: &[u8]) -> bool
    ensures { result ≡ chars.head_is (λ b. b == 101 || b == 69) bytes.now }
{
    match bytes {
        [] => false,
        [byte, ..] => *byte == 101 || *byte == 69,
    }
}

fn head_is_exponent_sign(bytes: &[u8]) -> bool
    ensures { result ≡ chars.head_is (λ b. b == 43 || b == 45) bytes.now }
{
    match bytes {
        [] => false,
        [byte, ..] => *byte == 43 || *byte == 45,
    }
}

fn begins_exponent(bytes: &[u8]) -> bool
    ensures { result ≡ spec.begins_exponent bytes.now }
{
    let second = behind(bytes, 1);
    let digit_first = head_is_digit(second);
    let sign_first = head_is_exponent_sign(second);
    let digit_second = head_is_digit(behind(bytes, 2));
    head_is_exponent_letter(bytes) && (digit_first || (sign_first && digit_second))
}

fn goes_on_as_float(bytes: &[u8]) -> bool
    ensures { result ≡ spec.goes_on_as_float bytes.now }
{
    begins(bytes, b".") || begins_exponent(bytes)
}

/// Whether a 0 stands before other digits.
pub fn has_leading_zero(digits: &[u8]) -> bool
    ensures value { result ≡ spec.has_leading_zero digits.now }
    ensures long { IsTrue result → 1 < length digits.now }
{
    begins(digits, b"0") && 1 < digits.len()
}

fn digits_step(digits: &[u8], rest: &[u8]) -> Step
    ensures value { maybe_step (Some result) ≡ spec.digits_step digits.now rest.now }
    ensures within { 0 < length digits.now → IsWithin (length digits.now) result }
{
    if goes_on_as_float(rest) {
        return Step::Refuses(LexicalFault::Float, 0);
    }
    if has_leading_zero(digits) {
        return Step::Refuses(LexicalFault::BadByte, 1);
    }
    match value_of(digits) {
        None => Step::Refuses(LexicalFault::BigInt, 0),
        Some(value) => {
            if head_is_name_byte(rest) {
                Step::Refuses(LexicalFault::BadByte, digits.len())
            } else {
                Step::Goes(Some(TokenKind::Int(value)), digits.len(), Mode::Inside)
            }
        }
    }
}

/// An integer literal, or a float, which is refused.
#[tactic(auto, unfolding(lexical_grammar::specs::Words::number_step))]
pub fn number_step(bytes: &[u8]) -> Option<Step>
    ensures value { maybe_step result ≡ spec.number_step bytes.now }
    ensures within { IfSome result (IsWithin (length bytes.now)) }
{
    let n = digits_length(bytes);
    if 0 < n {
        return Some(digits_step(front(bytes, n), behind(bytes, n)));
    }
    let point = begins(bytes, b".");
    let digit = head_is_digit(behind(bytes, 1));
    if point && digit {
        Some(Step::Refuses(LexicalFault::Float, 0))
    } else {
        None
    }
}
