//! The laws. Each function does nothing, and stands for the law that its contract states.

ghost use Rattle.page_reads.specs.Laws.{PageTokensRead, PiecesRead};

/// The reader by characters reads each lawful piece to its end, and nothing else.
pub fn pieces_read()
    ensures { PiecesRead }
{}

/// The reader by bytes puts out exactly the tokens of a page; so each page has exactly one list of
/// tokens.
pub fn page_tokens_read()
    ensures { PageTokensRead }
{}
