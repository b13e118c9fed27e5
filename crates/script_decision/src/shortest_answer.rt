//! Answers as they are shown.

use crate::showing_pages::ShownPage;

/// Whether each loose page of a program is good, and what is shown of a shortest one that is not.
#[derive(Debug, PartialEq, Eq, Drop)]
pub enum ShortestAnswer {
    /// Every loose page is good.
    Yes,
    /// A loose page is not good, of which this is shown. Each that has fewer bytes, and fewer than the
    /// largest `u64`, is good.
    No(ShownPage),
    /// Some nonterminal of an image, under the reader of pages, of the grammar that is made of the
    /// program has at least `count` different sums of sentences of at most `length` bytes, and
    /// `count` is over the limit. Every loose page of fewer bytes is good.
    Pairs { count: u64, length: u64 },
    /// Some sentence of a nonterminal of such an image of at most `length` bytes has `count`
    /// unmatched tags, and `count` is over 4,096. Every loose page of fewer bytes is good.
    Tags { count: u64, length: u64 },
    /// The image of a string operation of the program, or that of its pages, has at least `count`
    /// items, and `count` is over 8,000,000.
    Items { count: u64 },
}
