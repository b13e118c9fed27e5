//! Rules over numbers.

/// Where both premises follow, the conclusion does.
#[derive(Clone, Copy, Debug, PartialEq, Eq)]
pub struct Rule {
    pub first: u64,
    pub second: u64,
    pub conclusion: u64,
}
