//! The numbers that digits write.

ghost use Rattle.std.specs.Prelude.{◌≡◌, ◌≤◌, ◌+◌, ◌*◌};
ghost use Rattle.std.specs.Char as chars;
ghost use Rattle.page_model.specs.OpenValues.{capped};

use page_rules::digit_value;

/// All numbers over those of characters are this one.
const ABOVE: u64 = 0x0011_0000;

/// The number with one digit more, all numbers over those of characters being one.
pub fn with_digit(base: u32, number: u32, c: char) -> u32
    requires { base ≤ 16 }
    ensures { result ≡ capped (number * base + chars.digit_value c) }
{
    let more = u64::from(number) * u64::from(base) + u64::from(digit_value(c));
    if more <= ABOVE {
        more as u32
    } else {
        0x0011_0000
    }
}
