//! Signs and casts.

ghost use Rattle.std.specs.Prelude.{◌≡◌, ◌<◌, ◌≤◌, ◌∷◌, ℕ, List, length, Some, IfSome, map, bytes_eq, codes};
ghost use Rattle.lexical_grammar.specs.Characters as chars;
ghost use Rattle.lexical_grammar.specs.Steps.{gives};
ghost use Rattle.php_syntax.specs.Tokens.{sign as sign_kind};
ghost use Rattle.lexical_grammar.specs.Signs as spec;
ghost use Rattle.php_lexer.specs.View.{maybe_step, IsWithin};

use crate::scan::{begins, behind, front, gap_length, name_bytes_length};
use crate::step::{Mode, Step};
use lexical_grammar::lower;
use php_syntax::token::{Sign, TokenKind};

// The signs that begin with this byte, the longer ones first.
fn signs_beginning(byte: u8) -> &'static [Sign]
    ensures { (rest : List ℕ) → spec.first_sign result.now (byte ∷ rest)
        ≡ spec.first_sign spec.all_signs (byte ∷ rest) }
{
    match byte {
        b'=' => &[
            Sign::Identical,
            Sign::Equal,
            Sign::DoubleArrow,
            Sign::Assign,
        ],
        b'!' => &[Sign::NotIdentical, Sign::NotEqual, Sign::Not],
        b'?' => &[Sign::CoalesceAssign, Sign::Coalesce, Sign::Question],
        b'<' => &[Sign::LessGreater, Sign::LessEqual, Sign::Less],
        b'>' => &[Sign::GreaterEqual, Sign::Greater],
        b'&' => &[Sign::And],
        b'|' => &[Sign::Or],
        b'.' => &[Sign::JoinAssign, Sign::Dot],
        b'+' => &[Sign::AddAssign, Sign::Increment, Sign::Plus],
        b'-' => &[Sign::SubAssign, Sign::Decrement, Sign::Minus],
        b'*' => &[Sign::MulAssign, Sign::Star],
        b'%' => &[Sign::RemAssign, Sign::Percent],
        b':' => &[Sign::Colon],
        b',' => &[Sign::Comma],
        b';' => &[Sign::Semicolon],
        b'(' => &[Sign::OpenParen],
        b')' => &[Sign::CloseParen],
        b'[' => &[Sign::OpenBracket],
        b']' => &[Sign::CloseBracket],
        b'{' => &[Sign::OpenBrace],
        b'}' => &[Sign::CloseBrace],
        _ => &[],
    }
}

// A sign of so many bytes.
fn gives_sign(sign: Sign, n: usize) -> Step
    ensures value { maybe_step (Some result) ≡ gives (sign_kind sign) n }
    ensures within { (most : ℕ) → 0 < n → n ≤ most → IsWithin most result }
{
    Step::Goes(Some(TokenKind::Sign(sign)), n, Mode::Inside)
}

// The first of the signs that the bytes begin with.
#[tactic(auto, using(crate::proofs::SignLemmas::first_sign_drop, crate::proofs::SignLemmas::first_sign_end))]
fn first_sign(signs: &[Sign], bytes: &[u8]) -> Option<Step>
    ensures value { maybe_step result ≡ spec.first_sign signs.now bytes.now }
    ensures within { IfSome result (IsWithin (length bytes.now)) }
{
    for sign in signs {
        let spelling = sign.spelling();
        if begins(bytes, spelling) {
            return Some(gives_sign(*sign, spelling.len()));
        }
    }
    None
}

/// The longest sign that the bytes begin with.
#[tactic(auto, unfolding(lexical_grammar::specs::Signs::sign_step))]
pub fn sign_step(bytes: &[u8]) -> Option<Step>
    ensures value { maybe_step result ≡ spec.sign_step bytes.now }
    ensures within { IfSome result (IsWithin (length bytes.now)) }
{
    match bytes {
        [] => None,
        [byte, ..] => first_sign(signs_beginning(*byte), bytes),
    }
}

// Whether the word is `int`, in any case.
fn is_int(word: &[u8]) -> bool
    ensures { result ≡ bytes_eq (map chars.lower word.now) (codes "int") }
{
    match word {
        [a, b, c] => lower(*a) == b'i' && lower(*b) == b'n' && lower(*c) == b't',
        _ => false,
    }
}

// Whether the word is `string`, in any case.
fn is_string(word: &[u8]) -> bool
    ensures { result ≡ bytes_eq (map chars.lower word.now) (codes "string") }
{
    match word {
        [a, b, c, d, e, f] => {
            lower(*a) == b's'
                && lower(*b) == b't'
                && lower(*c) == b'r'
                && lower(*d) == b'i'
                && lower(*e) == b'n'
                && lower(*f) == b'g'
        }
        _ => false,
    }
}

// Which cast the word names.
fn cast_of(word: &[u8]) -> Option<Sign>
    ensures { result ≡ spec.cast_of word.now }
{
    if is_int(word) {
        Some(Sign::CastInt)
    } else if is_string(word) {
        Some(Sign::CastString)
    } else {
        None
    }
}

/// `(int)` or `(string)`.
#[tactic(auto, unfolding(lexical_grammar::specs::Signs::cast_step))]
pub fn cast_step(bytes: &[u8]) -> Option<Step>
    ensures value { maybe_step result ≡ spec.cast_step bytes.now }
    ensures within { IfSome result (IsWithin (length bytes.now)) }
{
    if !begins(bytes, b"(") {
        return None;
    }
    let inner = behind(bytes, 1);
    let gap = gap_length(inner);
    let named = behind(inner, gap);
    let word = name_bytes_length(named);
    let rest = behind(named, word);
    let second = gap_length(rest);
    let closed = begins(behind(rest, second), b")");
    match cast_of(front(named, word)) {
        None => None,
        Some(sign) => {
            if closed {
                Some(gives_sign(sign, 2 + gap + word + second))
            } else {
                None
            }
        }
    }
}
