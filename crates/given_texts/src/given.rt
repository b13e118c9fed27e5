//! The texts that are given.

ghost use Rattle.std.specs.Prelude.{◌<◌};
ghost use Rattle.cfg_grammar.specs.Tokens.{HaveNoToken};

use cfg_grammar::Grammar;
use text_base::Nt;

/// A grammar of texts: from its start those of the request, and from `integer` those of integers.
/// The type keeps that no page token stands in it.
#[derive(Debug, Drop)]
pub struct GivenTexts {
    pub grammar: Grammar,
    pub integer: Nt,
    ghost integer_below: { integer.0 < grammar.count },
    ghost no_token: { HaveNoToken grammar.productions.items },
}
