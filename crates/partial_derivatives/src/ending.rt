//! Whether parts match the empty text.

ghost use Rattle.std.specs.Prelude.{◌≡◌};
ghost use Rattle.derivatives.specs.Classes as classes;
ghost use Rattle.derivatives.specs.Derivatives as derivatives;
ghost use Rattle.derivatives.specs.Standing.{expr_at};
ghost use Rattle.partial_derivatives.specs.Classes as own;
ghost use Rattle.partial_derivatives.specs.Parts.{members_from, part_expr};
ghost use Rattle.partial_derivatives.specs.Parts as spec;

use crate::part::{Member, Part};
use derivatives::Arena;

/// Whether an expression matches the empty text. A number that has none does not.
fn may_end(arena: &Arena, place: usize) -> bool
    ensures { result ≡ derivatives.may_end (expr_at arena.now place) }
{
    if arena.is_expression(place) {
        arena.may_end(place)
    } else {
        false
    }
}

/// Whether each member that is required matches the empty text.
fn members_end(arena: &Arena, members: &[Member]) -> bool
    ensures { result ≡ derivatives.all_may_end (members_from arena.now members.now) }
{
    for member in members {
        if member.required && !may_end(arena, member.place) {
            return false;
        }
    }
    true
}

/// Whether a part matches the empty text.
pub(crate) fn part_ends(arena: &Arena, part: &Part) -> bool
    ensures { result ≡ derivatives.may_end (part_expr arena.now part.now) }
{
    match part {
        Part::Whole(place) => may_end(arena, *place),
        Part::Among(members) => members_end(arena, members.as_slice()),
    }
}

/// Whether each part matches the empty text, so that parts in turn may end here.
pub fn all_end(arena: &Arena, parts: &[Part]) -> bool
    ensures { result ≡ spec.all_end arena.now parts.now }
{
    for part in parts {
        if !part_ends(arena, part) {
            return false;
        }
    }
    true
}

/// The last byte up to which all bytes from this one on leave the same of an expression.
fn last_alike(arena: &Arena, byte: u8, place: usize) -> u8
    ensures { result ≡ classes.last_alike byte (expr_at arena.now place) }
{
    if arena.is_expression(place) {
        arena.class_end(byte, place)
    } else {
        u8::MAX
    }
}

/// The same of members in a row.
fn members_last(arena: &Arena, byte: u8, members: &[Member]) -> u8
    ensures { result ≡ classes.last_of_all byte (members_from arena.now members.now) }
{
    match members {
        [] => u8::MAX,
        [first, rest @ ..] => {
            last_alike(arena, byte, first.place).min(members_last(arena, byte, rest))
        }
    }
}

/// The same of a part.
fn part_last(arena: &Arena, byte: u8, part: &Part) -> u8
    ensures { result ≡ classes.last_alike byte (part_expr arena.now part.now) }
{
    match part {
        Part::Whole(place) => last_alike(arena, byte, *place),
        Part::Among(members) => members_last(arena, byte, members.as_slice()),
    }
}

/// The end of a class of bytes: up to that one all bytes from this one on leave the same of parts
/// in turn.
pub fn last_in_turn(arena: &Arena, byte: u8, parts: &[Part]) -> u8
    ensures { result ≡ own.last_in_turn arena.now byte parts.now }
{
    match parts {
        [] => u8::MAX,
        [part, rest @ ..] => {
            let last = part_last(arena, byte, part);
            if part_ends(arena, part) {
                last.min(last_in_turn(arena, byte, rest))
            } else {
                last
            }
        }
    }
}
