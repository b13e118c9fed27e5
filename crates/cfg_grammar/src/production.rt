//! One production of a grammar.

ghost use Rattle.std.specs.Prelude.{◌≡◌, ◌↔◌, [], IsTrue, slice_get, length};
ghost use Rattle.cfg_grammar.specs.Below.{symbols_of, production_below};
ghost use Rattle.cfg_grammar.specs.Tokens.{production_without_token};

use crate::symbol::Symbol;
use text_base::Nt;

/// The right side of a production: at most two symbols.
#[derive(Clone, Copy, Debug, PartialEq, Eq, Hash)]
pub enum Right {
    Empty,
    One(Symbol),
    Two(Symbol, Symbol),
}

/// The nonterminal on the left may become the symbols on the right.
#[derive(Clone, Copy, Debug, PartialEq, Eq, Hash)]
pub struct Production {
    pub left: Nt,
    pub right: Right,
}

impl Right {
    /// How many symbols there are.
    pub fn len(self) -> usize
        ensures { result ≡ length (symbols_of self) }
    {
        match self {
            Right::Empty => 0,
            Right::One(_) => 1,
            Right::Two(_, _) => 2,
        }
    }

    /// Whether there is no symbol.
    pub fn is_empty(self) -> bool
        ensures { IsTrue result ↔ (symbols_of self ≡ []) }
    {
        matches!(self, Right::Empty)
    }

    /// The symbol at a place; None exactly where there is none.
    pub fn get(self, place: usize) -> Option<Symbol>
        ensures { result ≡ slice_get (symbols_of self) place }
    {
        match (self, place) {
            (Right::One(a), 0) => Some(a),
            (Right::Two(a, _), 0) => Some(a),
            (Right::Two(_, b), 1) => Some(b),
            _ => None,
        }
    }
}

impl Production {
    /// Whether each of its nonterminals is below the count.
    pub fn is_below(self, count: u64) -> bool
        ensures { result ≡ production_below count self }
    {
        self.left.0 < count
            && match self.right {
                Right::Empty => true,
                Right::One(a) => a.is_below(count),
                Right::Two(a, b) => a.is_below(count) && b.is_below(count),
            }
    }

    /// Whether no page token stands in it.
    pub fn is_without_token(self) -> bool
        ensures { result ≡ production_without_token self }
    {
        match self.right {
            Right::Empty => true,
            Right::One(a) => a.is_no_token(),
            Right::Two(a, b) => a.is_no_token() && b.is_no_token(),
        }
    }
}
