//! The parts at the head of a pattern file.

ghost use Rattle.std.specs.Prelude.{◌≡◌, ◌<◌, ◌+◌, ◌∷◌, [], ℕ, Bool, false, List, length, IfSome, IfNone, MatchOption};
ghost use Rattle.page_policy.specs.Grammar.{Ranges, Byte};
ghost use Rattle.page_policy.specs.Machine.{PlainPart, PartAt, repeat_at};
ghost use Rattle.page_policy.specs.Machine as spec;
ghost use Rattle.page_policy.specs.Views.{IsClass, ReadsRanges, ReadsClass, ReadsPart, repeat_read};

use crate::bytes::{byte_at, range_at};
use crate::part::{Part, Repeat};
use byte_forms::ByteClass;
use text_base::{ByteRange, ByteSet};

/// What stands behind the bracket that ends a set, if it stands at the head.
fn behind_set(bytes: &[u8]) -> Option<&[u8]>
    ensures { MatchOption result ((w : List ℕ) → bytes.now ≡ 93 ∷ w → ⊥)
        (λ r. bytes.now ≡ 93 ∷ r.now) }
{
    match bytes.split_first() {
        Some((end, rest)) if *end == 93 => Some(rest),
        Some(_) => None,
        None => None,
    }
}

/// The ranges of a set and the bracket that ends it.
fn ranges_at(bytes: &[u8]) -> Option<(ByteSet, &[u8])>
    ensures some { IfSome result (λ r. ReadsRanges bytes.now r.0 r.1.now) }
    ensures none { IfNone result
        ((rs : List (ℕ × ℕ)) (w : List ℕ) → Ranges rs bytes.now w → ⊥) }
    ensures behind { IfSome result (λ r. length r.1.now < length bytes.now) }
{
    let mut set = ByteSet::empty();
    let mut rest = bytes;
    while let Some((range, others)) = range_at(rest) {
        set.add(range);
        if let Some(behind) = behind_set(others) {
            return Some((set, behind));
        }
        rest = others;
    }
    None
}

/// The bytes of a set, or all others.
fn class_of(others: bool, bytes: &[u8]) -> Option<(ByteClass, &[u8])>
    ensures some { IfSome result
        (λ r. (r.0.others ≡ others) × ReadsRanges bytes.now r.0.set r.1.now) }
    ensures none { IfNone result
        ((rs : List (ℕ × ℕ)) (w : List ℕ) → Ranges rs bytes.now w → ⊥) }
    ensures behind { IfSome result (λ r. length r.1.now < length bytes.now) }
{
    match ranges_at(bytes) {
        Some((set, rest)) => Some((ByteClass { others, set }, rest)),
        None => None,
    }
}

/// A set of bytes behind its bracket, or, with `^` at its head, all others.
fn set_at(bytes: &[u8]) -> Option<(ByteClass, &[u8])>
    ensures some { IfSome result (λ r. ReadsClass (91 ∷ bytes.now) r.0 r.1.now) }
    ensures none { IfNone result
        ((out : Bool) (rs : List (ℕ × ℕ)) (w : List ℕ) → Byte out rs (91 ∷ bytes.now) w → ⊥) }
    ensures behind { IfSome result (λ r. length r.1.now < length bytes.now) }
{
    if let Some((hat, ranges)) = bytes.split_first() {
        if *hat == 94 {
            return class_of(true, ranges);
        }
    }
    class_of(false, bytes)
}

/// The class of one byte alone.
fn only(byte: u8) -> ByteClass
    ensures { IsClass result false ((byte, byte) ∷ []) }
{
    let mut set = ByteSet::empty();
    set.add(ByteRange { lo: byte, hi: byte });
    ByteClass { others: false, set }
}

/// A byte at the head: any, one of a set, or one by itself.
fn class_at(bytes: &[u8]) -> Option<(ByteClass, &[u8])>
    ensures some { IfSome result (λ r. ReadsClass bytes.now r.0 r.1.now) }
    ensures none { IfNone result
        ((out : Bool) (rs : List (ℕ × ℕ)) (w : List ℕ) → Byte out rs bytes.now w → ⊥) }
    ensures behind { IfSome result (λ r. length r.1.now < length bytes.now) }
{
    let Some((first, rest)) = bytes.split_first() else {
        return None;
    };
    if *first == 46 {
        let set = ByteSet::empty();
        return Some((ByteClass { others: true, set }, rest));
    }
    if *first == 91 {
        return set_at(rest);
    }
    match byte_at(false, bytes) {
        Some((byte, rest)) => Some((only(byte), rest)),
        None => None,
    }
}

/// How often what stands before stands, and what stands behind.
fn repeat_of(bytes: &[u8]) -> (Repeat, &[u8])
    ensures value { repeat_read result ≡ repeat_at bytes.now }
    ensures behind { length result.1.now < length bytes.now + 1 }
{
    let Some((sign, rest)) = bytes.split_first() else {
        return (Repeat::Once, bytes);
    };
    match *sign {
        b'*' => (Repeat::Any, rest),
        b'+' => (Repeat::AtLeastOnce, rest),
        b'?' => (Repeat::AtMostOnce, rest),
        _ => (Repeat::Once, bytes),
    }
}

/// The part at the head, and what stands behind it.
pub(crate) fn part_at(bytes: &[u8]) -> Option<(Part, &[u8])>
    ensures some { IfSome result (λ r. ReadsPart bytes.now r.0 r.1.now) }
    ensures none { IfNone result
        ((x : PlainPart) (w : List ℕ) → PartAt x bytes.now w → ⊥) }
    ensures behind { IfSome result (λ r. length r.1.now < length bytes.now) }
{
    let Some((first, rest)) = bytes.split_first() else {
        return None;
    };
    if *first == 40 {
        return Some((Part::Open, rest));
    }
    if *first == 124 {
        return Some((Part::Bar, rest));
    }
    if *first == 41 {
        let (repeat, rest) = repeat_of(rest);
        return Some((Part::Close(repeat), rest));
    }
    match class_at(bytes) {
        Some((class, rest)) => {
            let (repeat, rest) = repeat_of(rest);
            Some((Part::Byte(class, repeat), rest))
        }
        None => None,
    }
}
