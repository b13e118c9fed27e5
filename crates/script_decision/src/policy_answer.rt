//! Answers as they are shown.

use crate::showing_pages::ShownPage;

/// Whether each loose page of a program fits a pattern, as it is shown.
#[derive(Debug, PartialEq, Eq, Drop)]
pub enum PolicyAnswer {
    /// Every loose page fits.
    Yes,
    /// A loose page does not fit, of which this is shown.
    No(ShownPage),
    /// The image of a string operation of the program, or that of its pages under the machine of
    /// the pattern's derivatives, has at least `count` items, and `count` is over 8,000,000.
    Items { count: u64 },
    /// The pattern has at least `count` different derivatives, and `count` is over 65,536.
    States { count: u64 },
}
