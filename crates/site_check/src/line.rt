//! What is answered for a script of a site.

use text_base::Bytes;

/// The status of a line for a script of which some file is missing.
pub const MISSING_STATUS: u8 = 6;

/// The status of a line for a script of which some file could not be read.
pub const FAULT_STATUS: u8 = 7;

/// What is answered for a script.
#[derive(Debug, Drop)]
pub enum Line {
    /// Each loose page is good.
    Yes,
    /// One that is not has so many bytes.
    No { length: u64 },
    /// So many sums of one nonterminal are over the limit, at this height.
    Pairs { count: u64, height: u64 },
    /// So many tags in one sum are over the limit, at this height.
    Tags { count: u64, height: u64 },
    /// So many items of an image are over the limit.
    Items { count: u64 },
    /// The script is not decided, by this status of the program and this text.
    Refused { status: u8, text: Bytes },
}
