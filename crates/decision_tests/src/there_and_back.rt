//! A page that is not nested, found over the tokens that the reader of pages puts between its bytes.

ghost use Rattle.dtd_model.specs.TableOf.{table_of};
ghost use Rattle.page_decision.specs.Readers.{ReadsPages};

use crate::derivations_of::is_by;
use crate::two_pages::two_pages;
use cfg_grammar::Grammar;
use derivations::{Derivation, prepare, yield_into};
use dtd_index::IndexedDtd;
use dtd_model::{Dtd, mini};
use dyck_balance::Nesting;
use echoing_machine::{Echoing, RunReader};
use io_edge::MemSink;
use page_decision::echo_laws::echo_is_page_machine;
use page_decision::{Goal, decide_pages, page_of, page_tokens_of, sums_of};
use std::alloc::Global;
use std::test::Fail;
use summary_decision::{Verdict, decide};
use text_base::NoMemory;
use way_reader::{PieceWays, WayReader};

// The derivation of a page that is not nested, by a reader of pages.
fn not_nested_by<R: RunReader + Drop>(
    alloc: Global,
    grammar: &Grammar,
    dtd: &Dtd,
    reader: R,
) -> Option<Derivation>
    requires { ReadsPages (table_of dtd.now) (R.next reader) (R.puts reader) (R.lasts reader)
        (R.first reader) }
{
    let Ok(sums) = sums_of(alloc, dtd, Goal::Nested) else {
        return None;
    };
    echo_is_page_machine(dtd, &reader);
    let machine = Echoing { reader };
    match decide_pages(
        alloc,
        grammar,
        dtd,
        Goal::Nested,
        &machine,
        &sums,
        100_000,
        100,
    ) {
        Ok(Verdict::No(derivation)) => Some(derivation),
        _ => None,
    }
}

// The same by the reader of a definition.
fn not_nested(alloc: Global, grammar: &Grammar, indexed: &IndexedDtd<'_>) -> Option<Derivation> {
    match PieceWays::of_pages(alloc, indexed) {
        Ok(ways) => not_nested_by(alloc, grammar, indexed.dtd, WayReader { ways: &ways }),
        Err(_) => None,
    }
}

// The same by the grammar of the token lists of the pages, from which the derivation is led back.
fn led_back_by<R: RunReader + Drop>(
    alloc: Global,
    grammar: &Grammar,
    dtd: &Dtd,
    reader: R,
) -> Option<Derivation>
    requires { ReadsPages (table_of dtd.now) (R.next reader) (R.puts reader) (R.lasts reader)
        (R.first reader) }
{
    echo_is_page_machine(dtd, &reader);
    let machine = Echoing { reader };
    let Ok(tokens) = page_tokens_of(alloc, grammar, dtd, &machine, 100_000) else {
        return None;
    };
    match decide(alloc, &Nesting::new(), &tokens.grammar, 100) {
        Ok(Verdict::No(derivation)) => {
            page_of(alloc, grammar, &machine, &tokens, &derivation).ok()
        }
        _ => None,
    }
}

// And by the reader of a definition.
fn led_back(alloc: Global, grammar: &Grammar, indexed: &IndexedDtd<'_>) -> Option<Derivation> {
    match PieceWays::of_pages(alloc, indexed) {
        Ok(ways) => led_back_by(alloc, grammar, indexed.dtd, WayReader { ways: &ways }),
        Err(_) => None,
    }
}

// The two pages, of which the second alone is not nested.
fn two(alloc: Global) -> Result<Option<Grammar>, NoMemory> {
    two_pages(
        alloc,
        b"<html><body><p>a &lt; b</p>".as_slice(),
        b"</body></html>".as_slice(),
        b"</html>".as_slice(),
    )
}

// The second end closes no body: the derivation of the no is one of that page by the grammar, which
// has no tokens.
#[test]
fn there_and_back(rt: HostRuntime) -> Result<(), Fail> {
    let alloc = rt.alloc();
    let dtd = mini(alloc)?;
    let indexed = IndexedDtd::new(alloc, &dtd)?;
    let grammar = two(alloc)?.ok_or("no grammar")?;
    let derivation = not_nested(alloc, &grammar, &indexed).ok_or("no derivation")?;
    let by_tokens = led_back(alloc, &grammar, &indexed).ok_or("no derivation by tokens")?;
    assert!(rt; is_by(&grammar, &by_tokens));
    let mut again = prepare(alloc, &by_tokens)?;
    let mut page = MemSink::new(alloc, None);
    assert_eq!(rt; yield_into(&mut again, 100, &mut page), Ok(()));
    assert_eq!(rt;
        page.written(),
        b"<html><body><p>a &lt; b</p></html>".as_slice()
    );
    assert!(rt; is_by(&grammar, &derivation));
    let mut walk = prepare(alloc, &derivation)?;
    let mut sink = MemSink::new(alloc, None);
    assert_eq!(rt; yield_into(&mut walk, 100, &mut sink), Ok(()));
    assert_eq!(rt;
        sink.written(),
        b"<html><body><p>a &lt; b</p></html>".as_slice()
    );
    Ok(())
}

// Where both ends are right, there is no such page.
#[test]
fn none_is_found(rt: HostRuntime) -> Result<(), Fail> {
    let alloc = rt.alloc();
    let dtd = mini(alloc)?;
    let indexed = IndexedDtd::new(alloc, &dtd)?;
    let grammar = two_pages(
        alloc,
        b"<html><body>".as_slice(),
        b"</body></html>".as_slice(),
        b"<p></p></body></html>".as_slice(),
    )?
    .ok_or("no grammar")?;
    assert!(rt; not_nested(alloc, &grammar, &indexed).is_none());
    Ok(())
}
