//! The laws. Each function does nothing, and stands for the law that its contract states.

ghost use Rattle.broken_forms.specs.Laws.{BrokenHaveBad, CoarseAreBroken, EndsAreSpelled};
ghost use Rattle.broken_forms.specs.Laws.{LooseEndOnce, LoosePiecesAreSpelled, LooseReferencesAreSpelled, LooseTagsAreSpelled};

/// The loose tags.
pub fn loose_tags_are_spelled()
    ensures { LooseTagsAreSpelled }
{}

/// The end tags.
pub fn ends_are_spelled()
    ensures { EndsAreSpelled }
{}

/// The loose references.
pub fn loose_references_are_spelled()
    ensures { LooseReferencesAreSpelled }
{}

/// All loose pieces at a place.
pub fn loose_pieces_are_spelled()
    ensures { LoosePiecesAreSpelled }
{}

/// No loose piece goes on where another ends.
pub fn loose_pieces_end_once()
    ensures { LooseEndOnce }
{}

/// A page that is no coarse pieces in turn is broken.
pub fn coarse_pages_are_broken()
    ensures { CoarseAreBroken }
{}

/// The tokens of a broken page hold one that is bad.
pub fn broken_have_bad()
    ensures { BrokenHaveBad }
{}
