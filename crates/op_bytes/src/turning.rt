//! Which bytes operations make of bytes.

ghost use Rattle.std.specs.Prelude.{◌≡◌, ◌<◌, ◌↔◌, ◌⊎◌, ℕ, true, Contains, IsTrue};
ghost use Rattle.text_base.specs.ByteSet.{Has};
ghost use Rattle.string_functions.specs.Html.{html_of_byte};
ghost use Rattle.string_functions.specs.Url.{url_of_byte, raw_url_of_byte, percent_of_byte};
ghost use Rattle.string_functions.specs.Slashes.{slashes_of_byte};
ghost use Rattle.op_system.specs.declared.op.Op.TheVariants.{Breaks};
ghost use Rattle.least_sets.specs.Bytes.{Turns};
ghost use Rattle.op_bytes.specs.Work.{IsTurned};

use op_system::Op;
use string_functions::of_byte::{
    hex_digit_of, html_reference, is_kept_byte, is_line_end_byte, lower_byte, upper_byte,
};
use text_base::{ByteRange, ByteSet};

/// Puts one byte into a set.
pub fn add_byte(set: &mut ByteSet, byte: u8)
    ensures { (c : ℕ) → c < 256 → Has set.new c ↔ (Has set.old c ⊎ (c ≡ byte)) }
{
    set.add(ByteRange { lo: byte, hi: byte });
}

/// Puts the bytes of a text into a set.
pub fn add_text(set: &mut ByteSet, text: &[u8])
    ensures { (c : ℕ) → c < 256 → Has set.new c ↔ (Has set.old c ⊎ Contains text.now c) }
{
    for byte in text {
        add_byte(set, *byte);
    }
}

/// Adds what `htmlspecialchars` writes for a byte.
fn add_html(set: &mut ByteSet, byte: u8)
    ensures { (c : ℕ) → c < 256 → Has set.new c ↔ (Has set.old c ⊎ Contains (html_of_byte byte) c) }
{
    match html_reference(byte) {
        None => add_byte(set, byte),
        Some(reference) => add_text(set, reference.as_bytes()),
    }
}

/// Adds `%` and the two digits of a byte.
fn add_percent(set: &mut ByteSet, byte: u8)
    ensures { (c : ℕ) → c < 256
        → Has set.new c ↔ (Has set.old c ⊎ Contains (percent_of_byte byte) c) }
{
    add_text(
        set,
        &[b'%', hex_digit_of(byte / 16), hex_digit_of(byte % 16)],
    );
}

/// Adds what `urlencode` writes for a byte.
fn add_url(set: &mut ByteSet, byte: u8)
    ensures { (c : ℕ) → c < 256 → Has set.new c ↔ (Has set.old c ⊎ Contains (url_of_byte byte) c) }
{
    if is_kept_byte(byte) {
        add_byte(set, byte);
    } else if byte == b' ' {
        add_byte(set, b'+');
    } else {
        add_percent(set, byte);
    }
}

/// Adds what `rawurlencode` writes for a byte.
fn add_raw_url(set: &mut ByteSet, byte: u8)
    ensures { (c : ℕ) → c < 256
        → Has set.new c ↔ (Has set.old c ⊎ Contains (raw_url_of_byte byte) c) }
{
    if is_kept_byte(byte) || byte == b'~' {
        add_byte(set, byte);
    } else {
        add_percent(set, byte);
    }
}

/// Adds what `addslashes` writes for a byte.
fn add_slashes(set: &mut ByteSet, byte: u8)
    ensures { (c : ℕ) → c < 256
        → Has set.new c ↔ (Has set.old c ⊎ Contains (slashes_of_byte byte) c) }
{
    if byte == b'\'' || byte == b'"' || byte == b'\\' {
        add_text(set, &[b'\\', byte]);
    } else if byte == 0 {
        add_text(set, b"\\0");
    } else {
        add_byte(set, byte);
    }
}

/// Adds what `nl2br` may write for a byte.
fn add_breaks(set: &mut ByteSet, byte: u8)
    ensures { (c : ℕ) → c < 256 → Has set.new c ↔ (Has set.old c ⊎ Turns Breaks byte c) }
{
    add_byte(set, byte);
    if is_line_end_byte(byte) {
        add_text(set, b"<br />");
    }
}

/// Adds the bytes that an operation may make of a byte.
pub fn add_turned(set: &mut ByteSet, op: &Op, byte: u8)
    ensures { (c : ℕ) → c < 256 → Has set.new c ↔ (Has set.old c ⊎ Turns op.now byte c) }
{
    match op {
        Op::Html => add_html(set, byte),
        Op::Lower => add_byte(set, lower_byte(byte)),
        Op::Upper => add_byte(set, upper_byte(byte)),
        Op::First => {
            add_byte(set, byte);
            add_byte(set, upper_byte(byte));
        }
        Op::Breaks => add_breaks(set, byte),
        Op::Url => add_url(set, byte),
        Op::RawUrl => add_raw_url(set, byte),
        Op::Slashes => add_slashes(set, byte),
        Op::Same => add_byte(set, byte),
        Op::Any => add_byte(set, byte),
        Op::Replace { .. } => add_byte(set, byte),
        Op::Cut { .. } => add_byte(set, byte),
        Op::Factor => add_byte(set, byte),
        Op::Trim { .. } => add_byte(set, byte),
        Op::Piece { .. } => add_byte(set, byte),
    }
}

/// Adds the bytes that an operation may make of a byte, where a set has it.
fn add_made(set: &mut ByteSet, op: &Op, own: &ByteSet, byte: u8)
    ensures { (c : ℕ) → c < 256
        → Has set.new c ↔ (Has set.old c ⊎ (Has own.now byte × Turns op.now byte c)) }
{
    if !own.has(byte) {
        return;
    }
    add_turned(set, op, byte);
}

/// The bytes that an operation may make of those of a set.
pub fn turned(op: &Op, own: &ByteSet) -> ByteSet
    ensures { (c : ℕ) → c < 256 → Has result c ↔ IsTurned op.now own.now c }
{
    let mut set = ByteSet::empty();
    for byte in 0..256_usize {
        add_made(&mut set, op, own, byte as u8);
    }
    set
}
