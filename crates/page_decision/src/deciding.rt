//! The decision.

ghost use Rattle.std.specs.Prelude.{◌≤◌, IfOk, IfErr, IfSome, IfNone};
ghost use Rattle.cfg_grammar.specs.declared.symbol.Symbol as symbols;
ghost use Rattle.dtd_model.specs.TableOf.{table_of};
ghost use Rattle.fst_core.specs.Outputs.{DerivesText};
ghost use Rattle.grammar_image.specs.Refusals.{IsCause};
ghost use Rattle.page_decision.specs.Machines.{IsBrokenMachine, IsPageMachine, PutsNoTags};
ghost use Rattle.page_decision.specs.PageSums.{AreSumsOf};
ghost use Rattle.page_decision.specs.PageVerdicts.{AreAllNested, IsBadPage, IsPageVerdict};
ghost use Rattle.page_decision.specs.Echoes.{IsMachineImage, PutsTokens};
ghost use Rattle.page_decision.specs.TextVerdicts.{IsDerivationOf};

use crate::goal_laws::{nests_tell_nested, sums_tell_valid};
use crate::sums::PageSums;
use crate::{Goal, decide_texts, find_wrong, texts_fit};
use cfg_grammar::Grammar;
use derivations::Derivation;
use dtd_model::Dtd;
use dyck_balance::Nesting;
use fst_core::Machine;
use grammar_image::ImageRefusal;
use std::alloc::Global;
use summary_decision::Verdict;

/// Whether each page that the grammar derives is good by the goal and the definition, with at most
/// `items` items of the image, at most `pairs` different sums of sentences a nonterminal, and
/// `TAG_LIMIT` unmatched tags a sum.
///
/// # Errors
///
/// `Large` only where the image has at least so many items, over `items`. `Memory` may come at any
/// time.
pub fn decide_pages<M: Machine>(
    alloc: Global,
    grammar: &Grammar,
    dtd: &Dtd,
    goal: Goal,
    machine: &M,
    sums: &PageSums,
    items: u64,
    pairs: u64,
) -> Result<Verdict, ImageRefusal>
    requires machine { IsPageMachine (table_of dtd.now) (M.first machine.now) (M.steps machine.now)
        (M.ends machine.now) }
    requires sums { AreSumsOf goal (table_of dtd.now) sums.now }
    ensures verdict { IfOk result (IsPageVerdict (table_of dtd.now)
        (DerivesText grammar.now.productions.items (symbols.Symbol.Nt grammar.now.start))
        (IsMachineImage grammar.now (M.first machine.now) (M.steps machine.now)
        (M.ends machine.now)) (IsDerivationOf grammar.now) goal pairs) }
    ensures cause { IfErr result
        (IsCause grammar.now.productions.items (M.steps machine.now) grammar.now.start
        (M.first machine.now) items) }
{
    let _ = dtd;
    let _ = goal;
    texts_fit(grammar);
    match sums {
        PageSums::BySegments(segments) => {
            sums_tell_valid();
            decide_texts(alloc, grammar, machine, segments, items, pairs)
        }
        PageSums::ByNesting(nesting) => {
            nests_tell_nested();
            decide_texts(alloc, grammar, machine, nesting, items, pairs)
        }
    }
}

/// A derivation of a page that is good by no goal, if the machine finds one. Where the machine puts
/// out no tags and two sums are allowed, None comes only where the tokens of each page are nested,
/// so that the machine tells of none.
///
/// # Errors
///
/// `Large` only where the image has at least so many items, over `items`. `Memory` may come at any
/// time.
pub fn find_broken<B: Machine>(
    alloc: Global,
    grammar: &Grammar,
    dtd: &Dtd,
    goal: Goal,
    machine: &B,
    items: u64,
    pairs: u64,
) -> Result<Option<Derivation>, ImageRefusal>
    requires { IsBrokenMachine (table_of dtd.now) (B.first machine.now) (B.steps machine.now)
        (B.ends machine.now) }
    ensures found { IfOk result (λ found. IfSome found (IsBadPage (table_of dtd.now)
        (DerivesText grammar.now.productions.items (symbols.Symbol.Nt grammar.now.start))
        (IsDerivationOf grammar.now) goal)) }
    ensures none { let pages = DerivesText grammar.now.productions.items
        (symbols.Symbol.Nt grammar.now.start) in
        let puts = PutsTokens (B.first machine.now) (B.steps machine.now) (B.ends machine.now) in
        2 ≤ pairs → PutsNoTags pages puts
        → IfOk result (λ found. IfNone found (AreAllNested pages puts)) }
    ensures cause { IfErr result
        (IsCause grammar.now.productions.items (B.steps machine.now) grammar.now.start
        (B.first machine.now) items) }
{
    let _ = dtd;
    let _ = goal;
    texts_fit(grammar);
    let nesting = Nesting::new();
    find_wrong(alloc, grammar, machine, &nesting, items, pairs)
}
