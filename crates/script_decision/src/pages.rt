//! The pages of a grammar, and when a broken one is looked for.

ghost use Rattle.std.specs.Prelude.{◌≡◌, ℕ, List, false, IfOk, IfErr, IfSome, IfNone};
ghost use Rattle.cfg_grammar.specs.declared.symbol.Symbol as symbols;
ghost use Rattle.broken_search.specs.Found.{IsSearchCause};
ghost use Rattle.dtd_model.specs.TableOf.{table_of};
ghost use Rattle.fst_core.specs.Outputs.{DerivesText};
ghost use Rattle.grammar_image.specs.Refusals.{IsCause};
ghost use Rattle.broken_readers.specs.Laws.{IsCoarselyBroken};
ghost use Rattle.broken_readers.specs.Starts.{AreCoarseWays};
ghost use Rattle.way_reader.specs.Reader.{starts_at};
ghost use Rattle.page_decision.specs.Echoes.{IsMachineImage};
ghost use Rattle.page_decision.specs.Machines.{IsPageMachine};
ghost use Rattle.page_decision.specs.PageSums.{AreSumsOf};
ghost use Rattle.page_decision.specs.PageVerdicts.{IsBadPage, IsPageVerdict};
ghost use Rattle.page_decision.specs.TextVerdicts.{IsDerivationOf};
ghost use Rattle.page_decision.specs.declared.goal.Goal as goals;
ghost use Rattle.script_decision.specs.Searches.{NoneIsBroken, IsSearchedIn};
ghost use Rattle.script_decision.specs.Steps.{is_settled};

use broken_readers::coarse_ways;
use broken_readers::laws::{
    broken_is_not_good, coarse_finds_broken, coarse_misses_none, coarse_tells_broken,
};
use broken_search::find_broken_page;
use cfg_grammar::Grammar;
use derivations::Derivation;
use dtd_model::Dtd;
use echoing_machine::Echoing;
use fst_core::Machine;
use grammar_image::ImageRefusal;
use loose_grammar::ITEM_LIMIT;
use page_decision::{Goal, PageSums, decide_pages, find_broken, texts_fit};
use std::alloc::Global;
use summary_decision::Verdict;
use way_reader::{PieceWays, WayReader, whole_forms_have_texts};

/// The most different sums of the sentences of a nonterminal by the tokens of the reader of coarse
/// pieces: a sentence has a bad token or none.
const COARSE_SUMS: u64 = 2;

/// The same by the ways in which coarse pieces begin.
fn find_by_ways(
    alloc: Global,
    grammar: &Grammar,
    dtd: &Dtd,
    goal: Goal,
    ways: &PieceWays,
) -> Result<Option<Derivation>, ImageRefusal>
    requires { AreCoarseWays ways.now.arena (starts_at ways.now.starts) }
    ensures found { IfOk result (λ found. IfSome found (IsBadPage (table_of dtd.now)
        (DerivesText grammar.now.productions.items (symbols.Symbol.Nt grammar.now.start))
        (IsDerivationOf grammar.now) goal)) }
    ensures none { IfOk result (λ found. IfNone found ((page : List ℕ)
        → DerivesText grammar.now.productions.items (symbols.Symbol.Nt grammar.now.start) page
        → IsCoarselyBroken page → ⊥)) }
{
    whole_forms_have_texts();
    coarse_tells_broken();
    coarse_misses_none();
    coarse_finds_broken();
    texts_fit(grammar);
    let machine = Echoing {
        reader: WayReader { ways },
    };
    find_broken(alloc, grammar, dtd, goal, &machine, ITEM_LIMIT, COARSE_SUMS)
}

/// A derivation of a page that is broken whatever the definition, and so good by no goal. None comes
/// only where no page is coarsely broken.
fn find_coarsely(
    alloc: Global,
    grammar: &Grammar,
    dtd: &Dtd,
    goal: Goal,
) -> Result<Option<Derivation>, ImageRefusal>
    ensures found { IfOk result (λ found. IfSome found (IsBadPage (table_of dtd.now)
        (DerivesText grammar.now.productions.items (symbols.Symbol.Nt grammar.now.start))
        (IsDerivationOf grammar.now) goal)) }
    ensures none { IfOk result (λ found. IfNone found ((page : List ℕ)
        → DerivesText grammar.now.productions.items (symbols.Symbol.Nt grammar.now.start) page
        → IsCoarselyBroken page → ⊥)) }
{
    let ways = coarse_ways(alloc)?;
    find_by_ways(alloc, grammar, dtd, goal, &ways)
}

/// Whether the pages are decided, or there was no memory for it.
fn is_settled(decided: &Result<Verdict, ImageRefusal>) -> bool
    ensures { result ≡ is_settled decided.now }
{
    match decided {
        Ok(Verdict::Yes | Verdict::No(_)) | Err(ImageRefusal::Memory) => true,
        Ok(Verdict::Pairs { .. } | Verdict::Tags { .. }) | Err(ImageRefusal::Large { .. }) => false,
    }
}

/// A derivation of a page that is broken by the definition, and so good by no goal. None comes only
/// where no page is.
fn find_by_definition(
    alloc: Global,
    grammar: &Grammar,
    dtd: &Dtd,
) -> Result<Option<Derivation>, ImageRefusal>
    ensures found { IfOk result (λ found. IfSome found (λ derivation. (goal : goals.Goal)
        → IsBadPage (table_of dtd.now)
        (DerivesText grammar.now.productions.items (symbols.Symbol.Nt grammar.now.start))
        (IsDerivationOf grammar.now) goal derivation)) }
    ensures none { IfOk result (λ found. IfNone found (NoneIsBroken (table_of dtd.now)
        (DerivesText grammar.now.productions.items (symbols.Symbol.Nt grammar.now.start)))) }
    ensures cause { IfErr result (IsSearchCause (table_of dtd.now) grammar.now ITEM_LIMIT) }
{
    broken_is_not_good();
    find_broken_page(alloc, grammar, dtd, ITEM_LIMIT)
}

/// Whether each page that the grammar derives is good. Where the decision passes a limit, a page that
/// is broken by the definition is looked for: one that is found is the answer, and else there is none
/// or the search passes its own limit.
fn decide_first<M: Machine>(
    alloc: Global,
    grammar: &Grammar,
    dtd: &Dtd,
    goal: Goal,
    machine: &M,
    sums: &PageSums,
    pairs: u64,
) -> Result<Verdict, ImageRefusal>
    requires machine { IsPageMachine (table_of dtd.now) (M.first machine.now) (M.steps machine.now)
        (M.ends machine.now) }
    requires sums { AreSumsOf goal (table_of dtd.now) sums.now }
    ensures verdict { IfOk result (IsPageVerdict (table_of dtd.now)
        (DerivesText grammar.now.productions.items (symbols.Symbol.Nt grammar.now.start))
        (IsMachineImage grammar.now (M.first machine.now) (M.steps machine.now)
        (M.ends machine.now)) (IsDerivationOf grammar.now) goal pairs) }
    ensures cause { IfErr result
        (IsCause grammar.now.productions.items (M.steps machine.now) grammar.now.start
        (M.first machine.now) ITEM_LIMIT) }
    ensures searched { is_settled result ≡ false → IsSearchedIn (table_of dtd.now) grammar.now }
{
    let decided = decide_pages(alloc, grammar, dtd, goal, machine, sums, ITEM_LIMIT, pairs);
    if is_settled(&decided) {
        return decided;
    }
    match find_by_definition(alloc, grammar, dtd) {
        Ok(Some(derivation)) => Ok(Verdict::No(derivation)),
        Ok(None) => decided,
        Err(ImageRefusal::Large { items }) => {
            let _ = items;
            decided
        }
        Err(ImageRefusal::Memory) => Err(ImageRefusal::Memory),
    }
}

/// Whether each page that the grammar derives is good. A page that is broken whatever the definition
/// is looked for first.
fn find_first<M: Machine>(
    alloc: Global,
    grammar: &Grammar,
    dtd: &Dtd,
    goal: Goal,
    machine: &M,
    sums: &PageSums,
    pairs: u64,
) -> Result<Verdict, ImageRefusal>
    requires machine { IsPageMachine (table_of dtd.now) (M.first machine.now) (M.steps machine.now)
        (M.ends machine.now) }
    requires sums { AreSumsOf goal (table_of dtd.now) sums.now }
    ensures verdict { IfOk result (IsPageVerdict (table_of dtd.now)
        (DerivesText grammar.now.productions.items (symbols.Symbol.Nt grammar.now.start))
        (IsMachineImage grammar.now (M.first machine.now) (M.steps machine.now)
        (M.ends machine.now)) (IsDerivationOf grammar.now) goal pairs) }
    ensures cause { IfErr result
        (IsCause grammar.now.productions.items (M.steps machine.now) grammar.now.start
        (M.first machine.now) ITEM_LIMIT) }
    ensures searched { is_settled result ≡ false → IsSearchedIn (table_of dtd.now) grammar.now }
{
    match find_coarsely(alloc, grammar, dtd, goal) {
        Ok(Some(derivation)) => Ok(Verdict::No(derivation)),
        Err(ImageRefusal::Memory) => Err(ImageRefusal::Memory),
        _ => decide_first(alloc, grammar, dtd, goal, machine, sums, pairs),
    }
}

/// Whether each page that the grammar derives is good by the goal and the definition. Where the
/// system of the pages takes texts from outside, a page that is broken whatever the definition is
/// looked for first, by a reader of few states: the whole reader meets too many where such a text
/// stands in a page as it is. Where none is taken it meets few, so that one pass decides. Where that
/// has passed a limit, a page that is broken by the definition is looked for behind it.
pub(crate) fn decide_grammar<M: Machine>(
    alloc: Global,
    grammar: &Grammar,
    takes_outside: bool,
    dtd: &Dtd,
    goal: Goal,
    machine: &M,
    sums: &PageSums,
    pairs: u64,
) -> Result<Verdict, ImageRefusal>
    requires machine { IsPageMachine (table_of dtd.now) (M.first machine.now) (M.steps machine.now)
        (M.ends machine.now) }
    requires sums { AreSumsOf goal (table_of dtd.now) sums.now }
    ensures verdict { IfOk result (IsPageVerdict (table_of dtd.now)
        (DerivesText grammar.now.productions.items (symbols.Symbol.Nt grammar.now.start))
        (IsMachineImage grammar.now (M.first machine.now) (M.steps machine.now)
        (M.ends machine.now)) (IsDerivationOf grammar.now) goal pairs) }
    ensures cause { IfErr result
        (IsCause grammar.now.productions.items (M.steps machine.now) grammar.now.start
        (M.first machine.now) ITEM_LIMIT) }
    ensures searched { is_settled result ≡ false → IsSearchedIn (table_of dtd.now) grammar.now }
{
    if takes_outside {
        find_first(alloc, grammar, dtd, goal, machine, sums, pairs)
    } else {
        decide_first(alloc, grammar, dtd, goal, machine, sums, pairs)
    }
}
