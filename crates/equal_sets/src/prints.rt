//! Prints of rows: equal rows have equal prints, and other rows rarely do. No clause speaks of them.

ghost use Rattle.std.specs.Prelude.{◌<◌};
ghost use Rattle.equal_sets.specs.Rows.{AreRows};

use crate::renaming::{right_of, set_of};
use crate::rows::{Rows, places_at};
use cfg_grammar::{Right, Symbol};
use op_system::Op;
use text_base::Nt;

/// The print with a number behind it.
fn with(print: u64, number: u64) -> u64 {
    (print.rotate_left(23) ^ number).wrapping_mul(0x9E37_79B9_7F4A_7C15)
}

/// The print with a symbol behind it.
fn with_symbol(print: u64, symbol: Symbol) -> u64 {
    match symbol {
        Symbol::Range(range) => with(
            with(with(print, 1), u64::from(range.lo)),
            u64::from(range.hi),
        ),
        Symbol::Token(_) => with(print, 2),
        Symbol::Nt(a) => with(with(print, 3), a.0),
    }
}

/// The print with a right side behind it.
fn with_right(print: u64, right: Right) -> u64 {
    match right {
        Right::Empty => with(print, 4),
        Right::One(a) => with_symbol(with(print, 5), a),
        Right::Two(a, b) => with_symbol(with_symbol(with(print, 6), a), b),
    }
}

/// The print with a text behind it.
fn with_text(print: u64, text: &[u8]) -> u64 {
    let mut made = with(print, text.len() as u64);
    for byte in text {
        made = with(made, u64::from(*byte));
    }
    made
}

/// The print with a number with its sign behind it.
fn with_number(print: u64, number: i64) -> u64 {
    with(with(print, u64::from(number < 0)), number.unsigned_abs())
}

/// The print with an operation behind it.
fn with_op(print: u64, op: &Op) -> u64 {
    match op {
        Op::Same => with(print, 10),
        Op::Any => with(print, 11),
        Op::Html => with(print, 12),
        Op::Replace { search, with: by } => {
            with_text(with_text(with(print, 13), search.as_slice()), by.as_slice())
        }
        Op::Cut { start, len } => match len {
            Some(len) => with_number(with_number(with(print, 14), *start), *len),
            None => with_number(with(print, 15), *start),
        },
        Op::Factor => with(print, 16),
        Op::Lower => with(print, 17),
        Op::Upper => with(print, 18),
        Op::First => with(print, 19),
        Op::Trim { left, right } => with(
            with(with(print, 20), u64::from(*left)),
            u64::from(*right),
        ),
        Op::Breaks => with(print, 21),
        Op::Url => with(print, 22),
        Op::RawUrl => with(print, 23),
        Op::Slashes => with(print, 24),
        Op::Piece { sep } => with_text(with(print, 25), sep.as_slice()),
    }
}

/// The print of the rows of a nonterminal, by the sets.
pub fn print_of(rows: &Rows<'_>, sets: &[Nt], a: Nt) -> u64
    requires rows { AreRows rows.now }
    requires below { a.0 < rows.now.system.now.grammar.count }
{
    let mut print = 0;
    for place in places_at(rows.rights.as_slice(), a) {
        if let Some(p) = rows
            .system
            .grammar
            .productions
            .as_slice()
            .get(*place)
            .copied()
        {
            print = with_right(print, right_of(sets, p.right));
        }
    }
    for place in places_at(rows.rules.as_slice(), a) {
        if let Some(rule) = rows.system.ops.as_slice().get(*place) {
            print = with(with_op(print, &rule.op), set_of(sets, rule.operand).0);
        }
    }
    print
}
