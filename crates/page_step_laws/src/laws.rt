//! The laws. Each function does nothing, and stands for the law that its contract states.

ghost use Rattle.page_step_laws.specs.Laws.{PiecesOpen, ReadByCharacters, TokensByReading};

/// Behind each character of a piece that goes on, something is open.
pub fn pieces_open()
    ensures { PiecesOpen }
{}

/// The reader fails at what is no character of XML, and what is not kept of the place makes no
/// difference to a character of several bytes.
pub fn read_by_characters()
    ensures { ReadByCharacters }
{}

/// Where the reader by characters reads the pieces of a page, the one by bytes puts out exactly the
/// tokens of the page.
pub fn tokens_by_reading()
    ensures { TokensByReading }
{}
