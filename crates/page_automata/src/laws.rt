//! Laws of the definitions, as functions that do nothing.

ghost use Rattle.page_automata.specs.Laws.{PageIsAutomaton, PageIsTree};
ghost use Rattle.page_automata.specs.Whole.{WholeIsTree};

/// The automaton of a definition, and the pages that it reads.
pub fn page_is_tree()
    ensures automaton { PageIsAutomaton }
    ensures tree { PageIsTree }
{}

/// A sum is whole exactly where the tokens are those of a tree that is as declared.
pub fn whole_is_tree()
    ensures { WholeIsTree }
{}
