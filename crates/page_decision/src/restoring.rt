//! From a derivation of tokens to one of a text that has them.

ghost use Rattle.std.specs.Prelude.{◌≡◌, ℕ, List, IfOk, map, slice_get};
ghost use Rattle.text_base.specs.declared.letter.Letter.{Letter};
ghost use Rattle.derivations.specs.Lawful.{AreLawful};
ghost use Rattle.derivations.specs.Stands.{IsDerivation};
ghost use Rattle.page_decision.specs.Echoes.{IsEchoing, PutsTokens};
ghost use Rattle.page_decision.specs.Restoring.{restored, use_of, with_bytes_of};
ghost use Rattle.page_decision.specs.Restoring as spec;
ghost use Rattle.page_decision.specs.TextVerdicts.{IsDerivationOf};
ghost use Rattle.page_decision.specs.TokenGrammars.{IsTokenGrammar};
ghost use Rattle.summary_decision.specs.Pairs.{tokens_in};

use crate::bytes::texts_fit;
use crate::token_grammar::TokenGrammar;
use cfg_grammar::{Grammar, Production, Right, Symbol};
use derivations::{Derivation, Node, Nodes, Part, Parts, derivations_derive};
use fst_core::Machine;
use grammar_image::source_of;
use std::alloc::Global;
use text_base::NoMemory;

/// What stands for a right side, by what stands for it without its bytes: the first byte of each
/// range.
fn with_bytes(right: Right, parts: Parts) -> Parts
    ensures { result ≡ spec.with_bytes right parts }
{
    match (right, parts) {
        (Right::One(Symbol::Range(range)), _) => Parts::One(Part::Byte(range.lo)),
        (Right::Two(Symbol::Range(first), Symbol::Range(second)), _) => {
            Parts::Two(Part::Byte(first.lo), Part::Byte(second.lo))
        }
        (Right::Two(Symbol::Range(first), _), Parts::One(p)) => {
            Parts::Two(Part::Byte(first.lo), p)
        }
        (Right::Two(_, Symbol::Range(second)), Parts::One(p)) => {
            Parts::Two(p, Part::Byte(second.lo))
        }
        (_, parts) => parts,
    }
}

/// What stands for the symbols of the production that a node uses.
fn parts_of(productions: &[Production], node: &Node) -> Parts
    ensures { result ≡ with_bytes_of (slice_get productions.now node.now.production) node.now.parts }
{
    match productions.get(node.production as usize) {
        Some(production) => with_bytes(production.right, node.parts),
        None => node.parts,
    }
}

/// The nodes with the bytes that were left out, each at its place.
fn restore(alloc: Global, productions: &[Production], nodes: &[Node]) -> Result<Nodes, NoMemory>
    requires { AreLawful nodes.now }
    ensures { IfOk result
        (λ made. map use_of made.nodes.items ≡ map (restored productions.now) nodes.now) }
{
    let mut made = Nodes::new(alloc);
    for node in nodes {
        let parts = parts_of(productions, node);
        made.push(node.production, parts)?;
    }
    Ok(made)
}

/// A derivation of a text by the grammar, over which the machine puts out the tokens that the
/// derivation of a token list has.
pub fn page_of<M: Machine>(
    alloc: Global,
    grammar: &Grammar,
    machine: &M,
    tokens: &TokenGrammar,
    derivation: &Derivation,
) -> Result<Derivation, NoMemory>
    requires echoing { IsEchoing (M.first machine.now) (M.steps machine.now) (M.ends machine.now) }
    requires made { IsTokenGrammar grammar.now (M.first machine.now) (M.steps machine.now)
        (M.ends machine.now) tokens.now }
    requires derived { (w : List Letter) × IsDerivation tokens.now.grammar.productions.items
        derivation.now.nodes.nodes.items tokens.now.grammar.start w }
    ensures { IfOk result
        (λ page. (w : List Letter)
        → IsDerivation tokens.now.grammar.productions.items derivation.now.nodes.nodes.items
        tokens.now.grammar.start w
        → (text : List ℕ) × IsDerivationOf grammar.now page text
        × PutsTokens (M.first machine.now) (M.steps machine.now) (M.ends machine.now) text
        (tokens_in w)) }
{
    let _ = machine;
    derivations_derive();
    texts_fit(grammar);
    let productions = tokens.echo.grammar.productions.as_slice();
    let nodes = restore(alloc, productions, derivation.nodes.as_slice())?;
    let echoed = Derivation::new(nodes);
    source_of(
        alloc,
        grammar.productions.as_slice(),
        grammar.start,
        tokens.echo.sources.as_slice(),
        &tokens.echo.grammar,
        &echoed,
    )
}
