//! The search.

ghost use Rattle.std.specs.Prelude.{ℕ, List, IfOk, IfErr, IfSome, IfNone};
ghost use Rattle.cfg_grammar.specs.declared.symbol.Symbol as symbols;
ghost use Rattle.dtd_model.specs.TableOf.{table_of};
ghost use Rattle.fst_core.specs.Outputs.{DerivesText};
ghost use Rattle.page_model.specs.Broken.{Broken};
ghost use Rattle.page_decision.specs.TextVerdicts.{IsDerivationOf};
ghost use Rattle.way_reader.specs.Reader.{starts_at};
ghost use Rattle.broken_readers.specs.Starts.{AreLooseWays};
ghost use Rattle.broken_search.specs.Found.{IsBrokenPage, IsSearchCause};

use broken_readers::laws::{loose_finds_broken, loose_misses_none, loose_tells_broken};
use broken_readers::loose_ways;
use cfg_grammar::Grammar;
use derivations::Derivation;
use dtd_model::Dtd;
use dyck_balance::Nesting;
use echoing_machine::Echoing;
use grammar_image::ImageRefusal;
use page_decision::{find_wrong, texts_fit};
use std::alloc::Global;
use way_reader::{PieceWays, WayReader, whole_forms_have_texts};

/// The most different sums of the sentences of a nonterminal by the tokens of the reader of loose
/// pieces: a sentence has a bad token or none.
const SUMS: u64 = 2;

/// The same by the ways in which loose pieces begin.
fn find_by(
    alloc: Global,
    grammar: &Grammar,
    dtd: &Dtd,
    ways: &PieceWays,
    items: u64,
) -> Result<Option<Derivation>, ImageRefusal>
    requires { AreLooseWays (table_of dtd.now) ways.now.arena (starts_at ways.now.starts) }
    ensures found { IfOk result (λ found. IfSome found (IsBrokenPage (table_of dtd.now)
        (DerivesText grammar.now.productions.items (symbols.Symbol.Nt grammar.now.start))
        (IsDerivationOf grammar.now))) }
    ensures none { IfOk result (λ found. IfNone found ((page : List ℕ)
        → DerivesText grammar.now.productions.items (symbols.Symbol.Nt grammar.now.start) page
        → Broken (table_of dtd.now) page → ⊥)) }
    ensures cause { IfErr result (IsSearchCause (table_of dtd.now) grammar.now items) }
{
    let _ = dtd;
    whole_forms_have_texts();
    loose_tells_broken();
    loose_misses_none();
    loose_finds_broken();
    texts_fit(grammar);
    let machine = Echoing {
        reader: WayReader { ways },
    };
    let nesting = Nesting::new();
    find_wrong(alloc, grammar, &machine, &nesting, items, SUMS)
}

/// A derivation, by the grammar, of a page that is broken by the definition; None exactly where it
/// derives no such page.
///
/// # Errors
///
/// `Large` only where the image of the grammar under the machine of the reader of loose pieces has
/// at least so many items, over `items`. `Memory` may come at any time.
pub fn find_broken_page(
    alloc: Global,
    grammar: &Grammar,
    dtd: &Dtd,
    items: u64,
) -> Result<Option<Derivation>, ImageRefusal>
    ensures found { IfOk result (λ found. IfSome found (IsBrokenPage (table_of dtd.now)
        (DerivesText grammar.now.productions.items (symbols.Symbol.Nt grammar.now.start))
        (IsDerivationOf grammar.now))) }
    ensures none { IfOk result (λ found. IfNone found ((page : List ℕ)
        → DerivesText grammar.now.productions.items (symbols.Symbol.Nt grammar.now.start) page
        → Broken (table_of dtd.now) page → ⊥)) }
    ensures cause { IfErr result (IsSearchCause (table_of dtd.now) grammar.now items) }
{
    let ways = loose_ways(alloc, dtd)?;
    find_by(alloc, grammar, dtd, &ways, items)
}
