//! Answers as they are shown.

use crate::ShownPage;

/// The answer for a program, as it is shown.
#[derive(Debug, PartialEq, Eq, Drop)]
pub enum ShownAnswer {
    /// Every loose page is good.
    Yes,
    /// A loose page is not good, of which this is shown.
    No(ShownPage),
    /// Some nonterminal of an image, under the reader of pages, of the grammar that is made of the
    /// program has at least `count` different sums of sentences with derivations of at most
    /// `height`, and `count` is over the limit. Every loose page with a derivation of a smaller
    /// height is good.
    Pairs { count: u64, height: u64 },
    /// Some sentence of a nonterminal of such an image with a derivation of at most `height` has
    /// `count` unmatched tags, and `count` is over 4,096. Every loose page with a derivation of a
    /// smaller height is good.
    Tags { count: u64, height: u64 },
    /// The image of a string operation of the program, or that of its pages, has at least `count`
    /// items, and `count` is over 8,000,000.
    Items { count: u64 },
}
