//! The kind of a number.

ghost use Rattle.std.specs.Prelude.{◌≡◌, map};
ghost use Rattle.number_kinds.specs.Kinds as spec;

use crate::rows::{DECIMAL_ROWS, HEXADECIMAL_ROWS};

fn kind_in(rows: &[(u32, u32)], number: u32) -> u32
    ensures { result ≡ spec.kind_in rows.now number }
{
    for (last, kind) in rows {
        if number <= *last {
            return *kind;
        }
    }
    0x11_0000
}

/// The least number that is of the kind of this one, as decimal digits write it; 0x110000 for all
/// numbers over 0x10FFFF.
pub fn decimal_kind(number: u32) -> u32
    ensures { result ≡ spec.decimal_kind number }
{
    kind_in(&DECIMAL_ROWS, number)
}

/// The least number that is of the kind of this one, as hexadecimal digits write it; 0x110000 for
/// all numbers over 0x10FFFF.
pub fn hexadecimal_kind(number: u32) -> u32
    ensures { result ≡ spec.hexadecimal_kind number }
{
    kind_in(&HEXADECIMAL_ROWS, number)
}
