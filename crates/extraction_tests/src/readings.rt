//! Scripts over another reading, with texts that are among their loose pages, and texts that are not.

ghost use Rattle.std.specs.Prelude.{◌≡◌, ◌↔◌, ◌∷◌, [], ℕ, List, All, IfOk};
ghost use Rattle.cfg_grammar.specs.Tokens.{HaveNoToken};
ghost use Rattle.cfg_grammar.specs.declared.symbol.Symbol as symbols;
ghost use Rattle.given_texts.specs.Closed.{HasText};
ghost use Rattle.op_system.specs.declared.op.Op.{Op};
ghost use Rattle.op_system.specs.Rel.{Rel};
ghost use Rattle.least_sets.specs.Simulations.{IsMonotone};

use crate::pages::all_are;
use crate::scripts::{points_of, script};
use cfg_grammar::{Grammar, Production, Right, Symbol};
use extraction::{Reading, extract_over};
use flow_code::FlowProgram;
use resolving::resolve;
use std::alloc::Global;
use std::test::Fail;
use text_base::{ByteRange, NoMemory, Nt};

/// The request brings `a` and nothing else; all else is as texts are.
struct Letter;

impl Reading for Letter {
    ghost outputs = { λ letter op input output. Rel op input output };

    ghost request = { λ letter text. text ≡ 97 ∷ [] };

    ghost circular = { λ letter bytes text. All bytes text };

    ghost monotone = { λ letter bytes more text wider all k other below. wider _ (all k other below) };
}

// The grammar of `a`.
#[tactic(auto, using(crate::proofs::Letters::letter_texts))]
fn letter_grammar(alloc: Global) -> Result<Grammar, NoMemory>
    ensures texts { IfOk result (λ g. (w : List ℕ) → (w ≡ 97 ∷ [])
        ↔ HasText g.productions.items (symbols.Symbol.Nt g.start) w) }
    ensures no_token { IfOk result (λ g. HaveNoToken g.productions.items) }
{
    let mut productions = Vec::new(alloc);
    productions.push(Production {
        left: Nt(0),
        right: Right::One(Symbol::Range(ByteRange { lo: 97, hi: 97 })),
    })?;
    Ok(Grammar {
        start: Nt(0),
        count: 1,
        productions,
    })
}

// The grammar of the loose pages of a program where the request brings `a` alone.
fn letter_pages(alloc: Global, flow: &FlowProgram) -> Option<Grammar> {
    let request = letter_grammar(alloc).ok()?;
    let system = extract_over(alloc, flow, &Letter, &request).ok()?;
    resolve(alloc, &system, 100_000).ok()
}

// The same of a script, where it is read and memory is ample.
fn letter_pages_of(alloc: Global, text: &str) -> Result<Option<Grammar>, NoMemory> {
    let mut source = script(alloc, text)?;
    let Some(flow) = points_of(alloc, &mut source) else {
        return Ok(None);
    };
    Ok(letter_pages(alloc, &flow))
}

// Whether a script has these texts among its loose pages where the request brings `a` alone, and not
// those.
fn has_pages(alloc: Global, script: &str, pages: &str, others: &str) -> Result<bool, NoMemory> {
    match letter_pages_of(alloc, script)? {
        None => Ok(false),
        Some(grammar) => {
            Ok(all_are(alloc, &grammar, pages, true)? && all_are(alloc, &grammar, others, false)?)
        }
    }
}

/// What the request brings is what the reading says, also as an operand.
#[test]
fn letters(rt: HostRuntime) -> Result<(), Fail> {
    for (script, pages, others) in [
        (
            "<?php echo $_GET['a'], '.';",
            "a.|Array.|.",
            "b.|aa.|<b>.|a",
        ),
        (
            "<?php echo strtoupper($_GET['a']), '.';",
            "A.|.",
            "a.|B.|AA.",
        ),
        (
            "<?php $x = $_GET['a']; while (isset($_GET['b'])) { $x = strtoupper($x); } echo $x;",
            "a|A|AA|",
            "aa|b|aA",
        ),
        ("<?php echo 'b', strlen('a');", "b1|b0|b-12", "b|a1|ba"),
    ] {
        assert!(rt; has_pages(rt.alloc(), script, pages, others)?, "{script}");
    }
    Ok(())
}
