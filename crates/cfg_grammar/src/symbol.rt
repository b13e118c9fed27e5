//! What stands on the right of a production.

ghost use Rattle.std.specs.Prelude.{◌≡◌, IsTrue};
ghost use Rattle.cfg_grammar.specs.Below.{symbol_below};
ghost use Rattle.cfg_grammar.specs.Tokens.{is_no_token};

use text_base::{ByteRange, Nt, PageToken};

/// One symbol of a production: some byte of a range, a token of a page, or a nonterminal.
#[derive(Clone, Copy, Debug, PartialEq, Eq, Hash)]
pub enum Symbol {
    Range(ByteRange),
    Token(PageToken),
    Nt(Nt),
}

impl Symbol {
    /// Whether this is no nonterminal, or one below the count.
    pub fn is_below(self, count: u64) -> bool
        ensures { result ≡ symbol_below count self }
    {
        match self {
            Symbol::Range(_) => true,
            Symbol::Token(_) => true,
            Symbol::Nt(a) => a.0 < count,
        }
    }

    /// Whether this is something else than a page token.
    pub fn is_no_token(self) -> bool
        ensures { result ≡ is_no_token self }
    {
        !matches!(self, Symbol::Token(_))
    }
}
