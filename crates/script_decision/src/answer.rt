//! Answers.

ghost use Rattle.std.specs.Prelude.{◌≡◌};
ghost use Rattle.script_decision.specs.Steps.{answer_of};

use derivations::Derivation;
use summary_decision::Verdict;

/// The answer for a program.
#[derive(Debug, Drop)]
pub enum Answer {
    /// Every loose page is good.
    Yes,
    /// This is a derivation of a loose page that is not good, by the grammar of loose pages.
    No(Derivation),
    /// Some nonterminal of an image, under the reader of pages, of the grammar that is made of the
    /// program has at least `count` different sums of sentences with derivations of at most
    /// `height`, and `count` is over the limit. Every loose page with a derivation of a smaller
    /// height is good.
    Pairs { count: u64, height: u64 },
    /// Some sentence of a nonterminal of such an image with a derivation of at most `height` has
    /// `count` unmatched tags, and `count` is over `TAG_LIMIT`. Every loose page with a derivation
    /// of a smaller height is good.
    Tags { count: u64, height: u64 },
    /// The image of a string operation of the program, or that of its pages, has at least `count`
    /// items, and `count` is over 8,000,000.
    Items { count: u64 },
}

/// The answer that a verdict on the pages is.
pub(crate) fn verdict_answer(verdict: Verdict) -> Answer
    ensures { result ≡ answer_of verdict }
{
    match verdict {
        Verdict::Yes => Answer::Yes,
        Verdict::No(derivation) => Answer::No(derivation),
        Verdict::Pairs { count, height } => Answer::Pairs { count, height },
        Verdict::Tags { count, height } => Answer::Tags { count, height },
    }
}
