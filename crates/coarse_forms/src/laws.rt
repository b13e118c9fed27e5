//! The laws. Each function does nothing, and stands for the law that its contract states.

ghost use Rattle.coarse_forms.specs.Laws.{CoarseAreBytes, CoarseEndsOnce, CoarseHasBytes, LawfulAreCoarse};

/// No coarse piece goes on where another ends.
pub fn coarse_pieces_end_once()
    ensures { CoarseEndsOnce }
{}

/// Each coarse piece has some byte.
pub fn coarse_pieces_have_bytes()
    ensures { CoarseHasBytes }
{}

/// Each coarse piece is a text of bytes.
pub fn coarse_pieces_are_bytes()
    ensures { CoarseAreBytes }
{}

/// The texts of lawful pieces that are neither tags nor references are coarse pieces, and
/// characters of text are such pieces in turn.
pub fn lawful_texts_are_coarse()
    ensures { LawfulAreCoarse }
{}
