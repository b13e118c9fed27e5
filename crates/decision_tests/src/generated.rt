//! Grammars that are drawn.

use std::alloc::Global;
use text_base::NoMemory;

/// Right sides: 3 and 4 are 1 and 2 with an end tag behind them.
const RIGHTS: [[u8; 2]; 14] = [
    *b"p3", *b"b4", *b"pP", *b"bB", *b"..", *b"t.", *b"11", *b"12", *b"21", *b"22", *b"1.", *b"2.",
    *b"p.", *b"P.",
];

/// The next number of a row that looks drawn (Knuth, The Art of Computer Programming 2, 3.3.4).
pub fn next(drawn: u64) -> u64 {
    drawn
        .wrapping_mul(6_364_136_223_846_793_005)
        .wrapping_add(1_442_695_040_888_963_407)
}

/// A right side by a drawn number.
fn right(drawn: u64) -> [u8; 2] {
    RIGHTS[((drawn >> 33) % 14) as usize]
}

/// A grammar of eight productions, and the number that is drawn last.
pub fn generated(alloc: Global, drawn: u64) -> Result<(Vec<u8>, u64), NoMemory> {
    let mut text = Vec::new(alloc);
    text.extend_from_slice(b"31P42B")?;
    let mut drawn = drawn;
    for left in b"001212" {
        drawn = next(drawn);
        text.push(*left)?;
        text.extend_from_slice(&right(drawn))?;
    }
    Ok((text, drawn))
}
