//! The decision against a listing.

use crate::generated::generated;
use crate::grammars::grammar;
use crate::listing::{is_nested, lists_wrong};
use crate::shown::shown;
use dyck_balance::Nesting;
use std::test::Fail;
use summary_decision::{Verdict, decide};

// Where a sentence that is listed is not nested, the answer is no; no comes with a derivation from
// the start whose sentence is not nested.
#[test]
fn against_a_listing(rt: HostRuntime) -> Result<(), Fail> {
    let alloc = rt.alloc();
    let nesting = Nesting::new();
    let mut drawn = 1;
    let mut count_yes: u32 = 0;
    let mut count_no: u32 = 0;
    for _ in 0..60 {
        let (text, last) = generated(alloc, drawn)?;
        drawn = last;
        let grammar = grammar(alloc, text.as_slice())?.ok_or("a nonterminal is too large")?;
        let is_wrong = lists_wrong(alloc, text.as_slice(), 4)?;
        match decide(alloc, &nesting, &grammar, 1000)? {
            Verdict::Yes => {
                count_yes = count_yes.wrapping_add(1);
                assert!(rt; !is_wrong, "{text:?}");
            }
            Verdict::No(derivation) => {
                count_no = count_no.wrapping_add(1);
                let letters = shown(alloc, text.as_slice(), derivation.nodes.as_slice())?.ok_or(
                    "no derivation",
                )?;
                assert!(rt; !is_nested(alloc, letters.as_slice())?, "{text:?}");
            }
            _ => assert!(rt; false, "{text:?}"),
        }
    }
    assert!(rt; count_yes > 5);
    assert!(rt; count_no > 5);
    Ok(())
}
