//! An image, and where it comes from.

ghost use Rattle.std.specs.Prelude.{◌≡◌};

use cfg_grammar::Grammar;
use chart_grammar::SourcedGrammar;
use grammar_chart::Passage;
use indexmap::IndexSet;
use std::hash::Hash;
use text_base::Exact;

/// An image, and which production of the grammar each of its own comes of, between which states.
pub struct Imaged<S: Exact + Hash + Drop> {
    /// The image. It begins in 0, and the passage k has the nonterminal k + 1.
    pub grammar: Grammar,
    /// For each of its first productions, the place of the one that it comes of. The others are of
    /// what the machine puts out.
    pub sources: Vec<u64>,
    /// Symbols of the grammar that is read, each from the number of a state to that of another.
    pub passages: IndexSet<Passage>,
    /// The states of the machine, by their numbers.
    pub states: IndexSet<S>,
}

// Written out, so that an image that is let go is one call to the proofs above, and not a step for
// each part.
impl<S: Exact + Hash + Drop> Drop for Imaged<S> {
    fn drop(self) {
        let Imaged {
            grammar: _,
            sources: _,
            passages: _,
            states: _,
        } = self;
    }
}

impl<S: Exact + Hash + Drop> Imaged<S> {
    /// The image, and the places that its first productions come of.
    pub fn into_sourced(self) -> SourcedGrammar
        ensures grammar { result.grammar ≡ self.grammar }
        ensures sources { result.sources ≡ self.sources }
    {
        let Imaged {
            grammar,
            sources,
            passages: _,
            states: _,
        } = self;
        SourcedGrammar { grammar, sources }
    }

    /// The image alone; what it comes of is let go.
    pub fn into_grammar(self) -> Grammar
        ensures { result ≡ self.grammar }
    {
        let Imaged {
            grammar,
            sources: _,
            passages: _,
            states: _,
        } = self;
        grammar
    }
}
