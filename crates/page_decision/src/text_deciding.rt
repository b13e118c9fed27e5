//! The decision.

ghost use Rattle.std.specs.Prelude.{◌≡◌, IfOk, IfErr, IfSome, IfNone};
ghost use Rattle.cfg_grammar.specs.declared.symbol.Symbol as symbols;
ghost use Rattle.fst_core.specs.Outputs.{DerivesText};
ghost use Rattle.grammar_image.specs.Refusals.{IsCause};
ghost use Rattle.grammar_image.specs.Echoes.{IsSourcedImage};
ghost use Rattle.page_decision.specs.Echoes.{EchoTexts, IsEchoing, IsMachineImage, PutsTokens};
ghost use Rattle.page_decision.specs.LedBack.{HasDerived, IsLedBack};
ghost use Rattle.page_decision.specs.TextVerdicts.{IsDerivationOf, IsNotWhole, IsTextVerdict, NoneFound, found_of};

use crate::bytes::texts_fit;
use cfg_grammar::Grammar;
use chart_grammar::SourcedGrammar;
use derivations::{Derivation, derivations_derive};
use fst_core::Machine;
use grammar_image::{ImageRefusal, image, source_of};
use std::alloc::Global;
use summary_decision::{Verdict, decide};
use tag_sums::Summary;
use text_base::NoMemory;

/// A grammar that derives the texts of another, with the tokens of the machine between their bytes,
/// and the places of productions that it comes of.
///
/// # Errors
///
/// `Large` only where the image has at least so many items, over `items`. `Memory` may come at any
/// time.
pub fn echo<M: Machine>(
    alloc: Global,
    grammar: &Grammar,
    machine: &M,
    items: u64,
) -> Result<SourcedGrammar, ImageRefusal>
    requires { IsEchoing (M.first machine.now) (M.steps machine.now) (M.ends machine.now) }
    ensures echo { IfOk result
        (λ echo. EchoTexts (DerivesText grammar.now.productions.items
        (symbols.Symbol.Nt grammar.now.start))
        (PutsTokens (M.first machine.now) (M.steps machine.now) (M.ends machine.now))
        echo.grammar.productions.items echo.grammar.start) }
    ensures image { IfOk result
        (λ echo. IsMachineImage grammar.now (M.first machine.now) (M.steps machine.now)
        (M.ends machine.now) echo.grammar) }
    ensures sources { IfOk result
        (λ echo. IsSourcedImage grammar.now.productions.items grammar.now.start
        echo.sources.items echo.grammar.productions.items) }
    ensures begins { IfOk result (λ echo. echo.grammar.start ≡ record { 0 = 0 }) }
    ensures cause { IfErr result
        (IsCause grammar.now.productions.items (M.steps machine.now) grammar.now.start
        (M.first machine.now) items) }
{
    texts_fit(grammar);
    match image(alloc, grammar, grammar.start, machine, items) {
        Ok(image) => Ok(image.into_sourced()),
        Err(refusal) => Err(refusal),
    }
}

/// The verdict, but that a derivation of the echo is one of the grammar.
fn lead_back(
    alloc: Global,
    grammar: &Grammar,
    echo: &SourcedGrammar,
    verdict: Verdict,
) -> Result<Verdict, NoMemory>
    requires sources { IsSourcedImage grammar.now.productions.items grammar.now.start
        echo.now.sources.items echo.now.grammar.productions.items }
    requires begins { echo.now.grammar.start ≡ record { 0 = 0 } }
    requires derived { HasDerived echo.now.grammar verdict }
    ensures { IfOk result (IsLedBack grammar.now echo.now.grammar verdict) }
{
    match verdict {
        Verdict::Yes => Ok(Verdict::Yes),
        Verdict::No(derivation) => {
            let source = source_of(
                alloc,
                grammar.productions.as_slice(),
                grammar.start,
                echo.sources.as_slice(),
                &echo.grammar,
                &derivation,
            )?;
            Ok(Verdict::No(source))
        }
        Verdict::Pairs { count, height } => Ok(Verdict::Pairs { count, height }),
        Verdict::Tags { count, height } => Ok(Verdict::Tags { count, height }),
    }
}

/// Whether each text that the grammar derives is whole by the summary, by the tokens that the
/// machine puts between its bytes: with at most `items` items of the image, at most `pairs`
/// different sums of sentences a nonterminal, and `TAG_LIMIT` unmatched tags a sum. A no has a
/// derivation of a text by the grammar itself.
///
/// # Errors
///
/// `Large` only where the image has at least so many items, over `items`. `Memory` may come at any
/// time.
pub fn decide_texts<M: Machine, S: Summary>(
    alloc: Global,
    grammar: &Grammar,
    machine: &M,
    summary: &S,
    items: u64,
    pairs: u64,
) -> Result<Verdict, ImageRefusal>
    requires { IsEchoing (M.first machine.now) (M.steps machine.now) (M.ends machine.now) }
    ensures verdict { IfOk result
        (IsTextVerdict (DerivesText grammar.now.productions.items
        (symbols.Symbol.Nt grammar.now.start))
        (PutsTokens (M.first machine.now) (M.steps machine.now) (M.ends machine.now))
        (S.sum_of summary.now) (S.is_whole summary.now)
        (IsMachineImage grammar.now (M.first machine.now) (M.steps machine.now)
        (M.ends machine.now)) (IsDerivationOf grammar.now) (S.tag_count summary.now) pairs) }
    ensures cause { IfErr result
        (IsCause grammar.now.productions.items (M.steps machine.now) grammar.now.start
        (M.first machine.now) items) }
{
    let echo = echo(alloc, grammar, machine, items)?;
    derivations_derive();
    let Ok(verdict) = decide(alloc, summary, &echo.grammar, pairs) else {
        return Err(ImageRefusal::Memory);
    };
    match lead_back(alloc, grammar, &echo, verdict) {
        Ok(led) => Ok(led),
        Err(_) => Err(ImageRefusal::Memory),
    }
}

/// The derivation that a verdict has.
fn found_in(verdict: Verdict) -> Option<Derivation>
    ensures { result ≡ found_of verdict }
{
    match verdict {
        Verdict::Yes => None,
        Verdict::No(derivation) => Some(derivation),
        Verdict::Pairs { .. } => None,
        Verdict::Tags { .. } => None,
    }
}

/// A derivation of a text that is not whole by the machine and the summary, if one is found. None
/// only where each text is whole, or a limit is passed.
///
/// # Errors
///
/// `Large` only where the image has at least so many items, over `items`. `Memory` may come at any
/// time.
pub fn find_wrong<M: Machine, S: Summary>(
    alloc: Global,
    grammar: &Grammar,
    machine: &M,
    summary: &S,
    items: u64,
    pairs: u64,
) -> Result<Option<Derivation>, ImageRefusal>
    requires { IsEchoing (M.first machine.now) (M.steps machine.now) (M.ends machine.now) }
    ensures found { IfOk result (λ found. IfSome found (IsNotWhole
        (DerivesText grammar.now.productions.items (symbols.Symbol.Nt grammar.now.start))
        (PutsTokens (M.first machine.now) (M.steps machine.now) (M.ends machine.now))
        (S.sum_of summary.now) (S.is_whole summary.now) (IsDerivationOf grammar.now))) }
    ensures none { IfOk result (λ found. IfNone found (NoneFound
        (DerivesText grammar.now.productions.items (symbols.Symbol.Nt grammar.now.start))
        (PutsTokens (M.first machine.now) (M.steps machine.now) (M.ends machine.now))
        (S.sum_of summary.now) (S.is_whole summary.now)
        (IsMachineImage grammar.now (M.first machine.now) (M.steps machine.now)
        (M.ends machine.now)) (S.tag_count summary.now) pairs)) }
    ensures cause { IfErr result
        (IsCause grammar.now.productions.items (M.steps machine.now) grammar.now.start
        (M.first machine.now) items) }
{
    match decide_texts(alloc, grammar, machine, summary, items, pairs) {
        Ok(verdict) => Ok(found_in(verdict)),
        Err(refusal) => Err(refusal),
    }
}
