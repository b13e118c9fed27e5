//! The law. The function does nothing, and stands for the law that its contract states.

ghost use Rattle.page_validator.specs.Laws.{AcceptsTrees};

/// The machine accepts exactly the tokens of a tree.
pub fn accepts_trees()
    ensures { AcceptsTrees }
{}
