//! The search.

ghost use Rattle.std.specs.Prelude.{◌≡◌, IfOk, IfErr};
ghost use Rattle.cfg_grammar.specs.declared.symbol.Symbol as symbols;
ghost use Rattle.fst_core.specs.Outputs.{DerivesText};
ghost use Rattle.grammar_image.specs.Echoes.{IsSourcedImage};
ghost use Rattle.grammar_image.specs.Refusals.{IsCause};
ghost use Rattle.page_decision.specs.Echoes.{IsEchoing, IsMachineImage, PutsTokens};
ghost use Rattle.page_decision.specs.TextVerdicts.{IsDerivationOf};
ghost use Rattle.short_page.specs.LedBack.{HasDerived, IsLedBack};
ghost use Rattle.short_page.specs.ShortTexts.{IsShortTextAnswer};

use cfg_grammar::Grammar;
use derivations::derivations_derive;
use fst_core::Machine;
use grammar_image::{ImageRefusal, Imaged, image, source_of};
use page_decision::texts_fit;
use short_sentences::{ShortAnswer, find_shortest};
use std::alloc::Global;
use std::hash::Hash;
use tag_sums::Summary;
use text_base::{Exact, NoMemory};

/// The answer, but that a derivation by the image is one by the grammar.
fn lead_back<T: Exact + Hash + Drop>(
    alloc: Global,
    grammar: &Grammar,
    image: &Imaged<T>,
    answer: ShortAnswer,
) -> Result<ShortAnswer, NoMemory>
    requires sources { IsSourcedImage grammar.now.productions.items grammar.now.start
        image.now.sources.items image.now.grammar.productions.items }
    requires begins { image.now.grammar.start ≡ record { 0 = 0 } }
    requires derived { HasDerived image.now.grammar answer }
    ensures { IfOk result (IsLedBack grammar.now image.now.grammar answer) }
{
    match answer {
        ShortAnswer::Whole => Ok(ShortAnswer::Whole),
        ShortAnswer::Shortest(derivation) => {
            let source = source_of(
                alloc,
                grammar.productions.as_slice(),
                grammar.start,
                image.sources.as_slice(),
                &image.grammar,
                &derivation,
            )?;
            Ok(ShortAnswer::Shortest(source))
        }
        ShortAnswer::Pairs { count, length } => Ok(ShortAnswer::Pairs { count, length }),
        ShortAnswer::Tags { count, length } => Ok(ShortAnswer::Tags { count, length }),
    }
}

/// A shortest text of the grammar that is not whole by the summary, by the tokens that the machine
/// puts between its bytes: with at most `items` items of the image, at most `pairs` different sums
/// of sentences a nonterminal, and `TAG_LIMIT` unmatched tags a sum. It has a derivation by the
/// grammar itself.
///
/// # Errors
///
/// `Large` only where the image has at least so many items, over `items`. `Memory` may come at any
/// time.
pub fn shortest<M: Machine, S: Summary>(
    alloc: Global,
    grammar: &Grammar,
    machine: &M,
    summary: &S,
    items: u64,
    pairs: u64,
) -> Result<ShortAnswer, ImageRefusal>
    requires { IsEchoing (M.first machine.now) (M.steps machine.now) (M.ends machine.now) }
    ensures answer { IfOk result
        (IsShortTextAnswer (DerivesText grammar.now.productions.items
        (symbols.Symbol.Nt grammar.now.start))
        (PutsTokens (M.first machine.now) (M.steps machine.now) (M.ends machine.now))
        (S.sum_of summary.now) (S.is_whole summary.now)
        (IsMachineImage grammar.now (M.first machine.now) (M.steps machine.now)
        (M.ends machine.now)) (IsDerivationOf grammar.now) (S.tag_count summary.now) pairs) }
    ensures cause { IfErr result
        (IsCause grammar.now.productions.items (M.steps machine.now) grammar.now.start
        (M.first machine.now) items) }
{
    texts_fit(grammar);
    derivations_derive();
    let image = image(alloc, grammar, grammar.start, machine, items)?;
    let Ok(answer) = find_shortest(alloc, summary, &image.grammar, pairs) else {
        return Err(ImageRefusal::Memory);
    };
    match lead_back(alloc, grammar, &image, answer) {
        Ok(led) => Ok(led),
        Err(_) => Err(ImageRefusal::Memory),
    }
}
