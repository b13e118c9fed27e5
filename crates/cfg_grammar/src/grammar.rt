//! Grammars.

ghost use Rattle.std.specs.Prelude.{◌≡◌, ◌<◌, ◌↔◌, IsTrue, IsSome, IfSome};
ghost use Rattle.cfg_grammar.specs.Below.{AreBelow, production_below};
ghost use Rattle.cfg_grammar.specs.Tokens.{HaveNoToken, production_without_token};
ghost use Rattle.std.specs.List.{list_all};

use crate::production::Production;
use text_base::Nt;

/// A context-free grammar. The nonterminals are the numbers below `count`; the type keeps that
/// every nonterminal in it is one of them.
#[derive(Debug, Drop)]
pub struct Grammar {
    pub start: Nt,
    pub count: u64,
    pub productions: Vec<Production>,
    ghost start_below: { start.0 < count },
    ghost below: { AreBelow count productions.items },
}

impl Grammar {
    /// The grammar of these productions; None exactly where the start or a nonterminal of a
    /// production is not below the count.
    pub fn new(start: Nt, count: u64, productions: Vec<Production>) -> Option<Grammar>
        ensures kept { IfSome result
            (λ g. (g.start ≡ start) × (g.count ≡ count) × (g.productions.items ≡ productions.items)) }
        ensures variant { IsSome result ↔ ((start.0 < count) × AreBelow count productions.items) }
    {
        if start.0 < count && are_below(count, &productions) {
            Some(Grammar {
                start,
                count,
                productions,
            })
        } else {
            None
        }
    }

    /// Whether no page token stands in it.
    pub fn is_without_token(&self) -> bool
        ensures { IsTrue result ↔ HaveNoToken self.now.productions.items }
    {
        are_without_token(&self.productions)
    }
}

/// Whether each nonterminal of the productions is below the count.
fn are_below(count: u64, productions: &[Production]) -> bool
    ensures { result ≡ list_all (production_below count) productions.now }
{
    productions.iter().all(|p| p.is_below(count))
}

/// Whether no page token stands in the productions.
fn are_without_token(productions: &[Production]) -> bool
    ensures { result ≡ list_all production_without_token productions.now }
{
    productions.iter().all(|p| p.is_without_token())
}
