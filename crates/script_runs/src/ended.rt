//! What a run comes to.

use crate::End;
use text_base::Bytes;

/// A run that has ended.
#[derive(Drop)]
pub struct Ended {
    /// What it printed.
    pub printed: Bytes,
    /// How it ended.
    pub end: End,
}
