//! The rows of the grammar. Nonterminal 0 is any number of characters, 1 a character, 2 to 4 are
//! one to three bytes behind a first one, 5 to 10 are those that may come behind the first bytes
//! 0xE0, 0xED, 0xEF (7, and 8 behind 0xEF 0xBF), 0xF0 and 0xF4 (The Unicode Standard, table 3-7,
//! and XML 1.0, 2.2); 11 is an integer, 12 one without a sign and not 0, and 13 + k at most k
//! digits.

/// The number of nonterminals.
pub const COUNT: u64 = 32;

/// A nonterminal may be a byte between two, both included, with what another one may be behind it,
/// or alone.
pub const ROWS: [(u64, u8, u8, Option<u64>); 44] = [
    (1, 0x09, 0x0A, None),
    (1, 0x0D, 0x0D, None),
    (1, 0x20, 0x7F, None),
    (1, 0xC2, 0xDF, Some(2)),
    (1, 0xE0, 0xE0, Some(5)),
    (1, 0xE1, 0xEC, Some(3)),
    (1, 0xED, 0xED, Some(6)),
    (1, 0xEE, 0xEE, Some(3)),
    (1, 0xEF, 0xEF, Some(7)),
    (1, 0xF0, 0xF0, Some(9)),
    (1, 0xF1, 0xF3, Some(4)),
    (1, 0xF4, 0xF4, Some(10)),
    (2, 0x80, 0xBF, None),
    (3, 0x80, 0xBF, Some(2)),
    (4, 0x80, 0xBF, Some(3)),
    (5, 0xA0, 0xBF, Some(2)),
    (6, 0x80, 0x9F, Some(2)),
    (7, 0x80, 0xBE, Some(2)),
    (7, 0xBF, 0xBF, Some(8)),
    (8, 0x80, 0xBD, None),
    (9, 0x90, 0xBF, Some(3)),
    (10, 0x80, 0x8F, Some(3)),
    (11, 0x30, 0x30, None),
    (11, 0x2D, 0x2D, Some(12)),
    (11, 0x31, 0x39, Some(31)),
    (12, 0x31, 0x39, Some(31)),
    (14, 0x30, 0x39, Some(13)),
    (15, 0x30, 0x39, Some(14)),
    (16, 0x30, 0x39, Some(15)),
    (17, 0x30, 0x39, Some(16)),
    (18, 0x30, 0x39, Some(17)),
    (19, 0x30, 0x39, Some(18)),
    (20, 0x30, 0x39, Some(19)),
    (21, 0x30, 0x39, Some(20)),
    (22, 0x30, 0x39, Some(21)),
    (23, 0x30, 0x39, Some(22)),
    (24, 0x30, 0x39, Some(23)),
    (25, 0x30, 0x39, Some(24)),
    (26, 0x30, 0x39, Some(25)),
    (27, 0x30, 0x39, Some(26)),
    (28, 0x30, 0x39, Some(27)),
    (29, 0x30, 0x39, Some(28)),
    (30, 0x30, 0x39, Some(29)),
    (31, 0x30, 0x39, Some(30)),
];

/// The nonterminals that may be empty.
pub const ENDS: [u64; 20] = [
    0, 13, 14, 15, 16, 17, 18, 19, 20, 21, 22, 23, 24, 25, 26, 27, 28, 29, 30, 31,
];
