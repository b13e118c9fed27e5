//! The laws. Each function does nothing, and stands for the law that its contract states.

ghost use Rattle.page_model.specs.Laws.{OneCutting, OnePage, OneTokenList, ValidByPieces, ValidByTokens};

/// Bytes are cut into pieces in at most one way (XML 1.0, 2.1).
pub fn one_cutting()
    ensures { OneCutting }
{}

/// Two page trees that bytes spell have the same pieces.
pub fn one_page()
    ensures { OnePage }
{}

/// Bytes have at most one list of tokens.
pub fn one_token_list()
    ensures { OneTokenList }
{}

/// A page is valid exactly where its tokens are those of a tree.
pub fn valid_by_tokens()
    ensures { ValidByTokens }
{}

/// A page is valid exactly where its characters are lawful pieces whose tokens are those of a
/// tree.
pub fn valid_by_pieces()
    ensures { ValidByPieces }
{}
