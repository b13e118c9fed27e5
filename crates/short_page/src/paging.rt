//! The search among pages.

ghost use Rattle.std.specs.Prelude.{IfOk, IfErr};
ghost use Rattle.cfg_grammar.specs.declared.symbol.Symbol as symbols;
ghost use Rattle.dtd_model.specs.TableOf.{table_of};
ghost use Rattle.fst_core.specs.Outputs.{DerivesText};
ghost use Rattle.grammar_image.specs.Refusals.{IsCause};
ghost use Rattle.page_decision.specs.Machines.{IsPageMachine};
ghost use Rattle.page_decision.specs.PageSums.{AreSumsOf};
ghost use Rattle.page_decision.specs.Echoes.{IsMachineImage};
ghost use Rattle.page_decision.specs.TextVerdicts.{IsDerivationOf};
ghost use Rattle.short_page.specs.ShortPages.{IsShortPageAnswer};

use crate::finding::shortest;
use cfg_grammar::Grammar;
use dtd_model::Dtd;
use fst_core::Machine;
use grammar_image::ImageRefusal;
use page_decision::goal_laws::{nests_tell_nested, sums_tell_valid};
use page_decision::{Goal, PageSums, texts_fit};
use short_sentences::ShortAnswer;
use std::alloc::Global;

/// A shortest page that the grammar derives and that is not good by the goal and the definition, with
/// at most `items` items of the image, at most `pairs` different sums of sentences a nonterminal,
/// and `TAG_LIMIT` unmatched tags a sum.
///
/// # Errors
///
/// `Large` only where the image has at least so many items, over `items`. `Memory` may come at any
/// time.
pub fn shortest_page<M: Machine>(
    alloc: Global,
    grammar: &Grammar,
    dtd: &Dtd,
    goal: Goal,
    machine: &M,
    sums: &PageSums,
    items: u64,
    pairs: u64,
) -> Result<ShortAnswer, ImageRefusal>
    requires machine { IsPageMachine (table_of dtd.now) (M.first machine.now) (M.steps machine.now)
        (M.ends machine.now) }
    requires sums { AreSumsOf goal (table_of dtd.now) sums.now }
    ensures answer { IfOk result (IsShortPageAnswer (table_of dtd.now)
        (DerivesText grammar.now.productions.items (symbols.Symbol.Nt grammar.now.start))
        (IsMachineImage grammar.now (M.first machine.now) (M.steps machine.now)
        (M.ends machine.now)) (IsDerivationOf grammar.now) goal pairs) }
    ensures cause { IfErr result
        (IsCause grammar.now.productions.items (M.steps machine.now) grammar.now.start
        (M.first machine.now) items) }
{
    let _ = dtd;
    let _ = goal;
    texts_fit(grammar);
    match sums {
        PageSums::BySegments(segments) => {
            sums_tell_valid();
            shortest(alloc, grammar, machine, segments, items, pairs)
        }
        PageSums::ByNesting(nesting) => {
            nests_tell_nested();
            shortest(alloc, grammar, machine, nesting, items, pairs)
        }
    }
}
