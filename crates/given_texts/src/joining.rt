//! The texts that are given, with those of the request.

ghost use Rattle.std.specs.Prelude.{◌≡◌, ◌+◌, ◌≤◌, length, IfOk};
ghost use Rattle.cfg_grammar.specs.Tokens.{HaveNoToken};
ghost use Rattle.cfg_grammar.specs.declared.symbol.Symbol as symbols;
ghost use Rattle.given_texts.specs.Closed.{HasText, IsClosed};
ghost use Rattle.given_texts.specs.Given.{closed_of};

use crate::keeping::add_kept;
use crate::{GivenTexts, given_texts, sum};
use cfg_grammar::{Grammar, Production};
use std::alloc::Global;
use text_base::{NoMemory, Nt};
use useful_nonterminals::productive;

/// The productions once more.
fn copied(alloc: Global, productions: &[Production]) -> Result<Vec<Production>, NoMemory>
    ensures { IfOk result (λ ps. ps.items ≡ productions.now) }
{
    let mut copied = Vec::new(alloc);
    for production in productions {
        copied.push(*production)?;
    }
    Ok(copied)
}

/// The grammar of all sentences of a grammar without page tokens, with the nonterminal of all integer
/// texts, in which each symbol on a right side has a text. It has 32 nonterminals and at most 65
/// productions beside those of the grammar. The time is linear in the grammar.
pub fn request_texts(alloc: Global, request: &Grammar) -> Result<GivenTexts, NoMemory>
    requires { HaveNoToken request.now.productions.items }
    ensures closed { IfOk result (λ g. IsClosed (closed_of g)
        (HasText request.now.productions.items (symbols.Symbol.Nt request.now.start))) }
    ensures numbers { IfOk result (λ g. g.grammar.count ≡ 32 + request.now.count) }
    ensures sizes { IfOk result (λ g. length g.grammar.productions.items
        ≤ 65 + length request.now.productions.items) }
{
    let given = given_texts(alloc)?;
    let marks = productive(alloc, request)?;
    let base = given.grammar.count;
    let count = sum(base, request.count)?;
    let start = sum(base, request.start.0)?;
    let mut productions = copied(alloc, given.grammar.productions.as_slice())?;
    add_kept(
        &mut productions,
        marks.as_slice(),
        base,
        request.productions.as_slice(),
    )?;
    let grammar = Grammar {
        start: Nt(start),
        count,
        productions,
    };
    Ok(GivenTexts {
        grammar,
        integer: given.integer,
    })
}
