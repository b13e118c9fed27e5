//! Grammars are cut.

ghost use Rattle.std.specs.Prelude.{◌≤◌, ◌↔◌, ℕ, List, length, IfOk, IfErr};
ghost use Rattle.cfg_grammar.specs.declared.symbol.Symbol as symbols;
ghost use Rattle.fst_core.specs.Outputs.{DerivesText};
ghost use Rattle.grammar_image.specs.Refusals.{IsCause};
ghost use Rattle.cut_grammars.specs.Counts.{CountStep};

use crate::counting::Counting;
use cfg_grammar::Grammar;
use grammar_image::{ImageRefusal, image};
use std::alloc::Global;

/// A grammar that derives exactly the texts of at most `most` bytes that the grammar derives: its
/// image under the machine that counts, with at most `items` items.
///
/// # Errors
///
/// `Large` only where the image has at least so many items, over `items`. `Memory` may come at any
/// time.
pub fn cut(alloc: Global, grammar: &Grammar, most: u64, items: u64) -> Result<Grammar, ImageRefusal>
    ensures texts { IfOk result (λ cut. (text : List ℕ)
        → DerivesText cut.productions.items (symbols.Symbol.Nt cut.start) text
        ↔ (DerivesText grammar.now.productions.items (symbols.Symbol.Nt grammar.now.start) text
        × (length text ≤ most))) }
    ensures cause { IfErr result
        (IsCause grammar.now.productions.items (CountStep most) grammar.now.start 0 items) }
{
    let machine = Counting { most };
    match image(alloc, grammar, grammar.start, &machine, items) {
        Ok(image) => Ok(image.into_grammar()),
        Err(refusal) => Err(refusal),
    }
}
