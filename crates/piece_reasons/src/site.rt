//! The place of a page that is looked at.

ghost use Rattle.std.specs.Prelude.{◌≡◌};
ghost use Rattle.piece_reasons.specs.Spans.{place_before, IsSpan};

use crate::reasons::Span;
use dtd_index::IndexedDtd;
use page_rules::Place;

/// A place of a page, and what is declared.
#[derive(Clone, Copy)]
pub struct Site<'i, 'd> {
    /// What is declared.
    pub indexed: &'i IndexedDtd<'d>,
    /// How many bytes the page has.
    pub size: usize,
    /// What stands before the place.
    pub place: Place,
}

impl Site<'_, '_> {
    /// The byte at which this is left of the page's characters.
    pub fn before(&self, left: &[char]) -> usize
        ensures { result ≡ place_before self.now.size left.now }
    {
        let mut at = self.size;
        for c in left {
            at = at.saturating_sub(c.len_utf8());
        }
        at
    }

    /// The bytes from where the first is left up to where the second is.
    pub fn span(&self, left: &[char], behind: &[char]) -> Span
        ensures { IsSpan self.now.size left.now behind.now result }
    {
        Span {
            from: self.before(left),
            to: self.before(behind),
        }
    }
}
