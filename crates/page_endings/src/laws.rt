//! The laws. Each function does nothing, and stands for the law that its contract states.

ghost use Rattle.page_endings.specs.Laws.{BytesEnd, BytesKept, CharactersEnd, EndsCan, ShapesKept};

/// By a lawful definition some characters end each open piece that passes the test.
pub fn characters_end()
    ensures { CharactersEnd }
{}

/// The steps keep the shapes of what is open.
pub fn shapes_kept()
    ensures { ShapesKept }
{}

/// By a lawful definition some bytes end the piece of each state that passes the test.
pub fn bytes_end()
    ensures { BytesEnd }
{}

/// The steps by bytes keep the shapes.
pub fn bytes_kept()
    ensures { BytesKept }
{}

/// Each state passes the test from which some bytes end a piece.
pub fn ends_can()
    ensures { EndsCan }
{}
