//! Which page is shown.

/// Which page is shown of a script that may print one that is not good.
#[derive(Clone, Copy, Debug, PartialEq, Eq)]
pub enum PageChoice {
    /// The first that is found.
    First,
    /// One of the fewest bytes.
    Shortest,
}
