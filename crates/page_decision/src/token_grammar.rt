//! Grammars of the token lists of texts.

ghost use Rattle.std.specs.Prelude.{◌≡◌, length, map, IfOk, IfErr};
ghost use Rattle.cfg_grammar.specs.declared.symbol.Symbol as symbols;
ghost use Rattle.dtd_model.specs.TableOf.{table_of};
ghost use Rattle.fst_core.specs.Outputs.{DerivesText};
ghost use Rattle.fst_core.specs.Weight.{IsSmall};
ghost use Rattle.grammar_image.specs.Refusals.{IsCause};
ghost use Rattle.page_decision.specs.Echoes.{IsEchoing, PutsTokens};
ghost use Rattle.page_decision.specs.Machines.{IsPageMachine};
ghost use Rattle.page_decision.specs.TokenGrammars.{DeriveTokenLists, IsTokenGrammar, is_no_byte, production_without_bytes};
ghost use Rattle.page_decision.specs.TokenGrammars as spec;
ghost use Rattle.page_model.specs.PageTokens.{PageTokens};

use crate::bytes::texts_fit;
use crate::text_deciding::echo;
use cfg_grammar::{Grammar, Production, Right, Symbol};
use chart_grammar::SourcedGrammar;
use dtd_model::Dtd;
use fst_core::Machine;
use grammar_image::ImageRefusal;
use std::alloc::Global;
use text_base::NoMemory;

/// A grammar of the token lists of texts, and the grammar of these texts with their tokens. Both
/// have the same nonterminals, and their productions have the same places.
#[derive(Drop)]
pub struct TokenGrammar {
    /// Its sentences are the token lists.
    pub grammar: Grammar,
    /// Its sentences are the texts with their tokens between the bytes.
    pub echo: SourcedGrammar,
}

/// Whether the symbol is something else than a range of bytes.
fn is_no_byte(symbol: Symbol) -> bool
    ensures { result ≡ is_no_byte symbol }
{
    !matches!(symbol, Symbol::Range(_))
}

/// A right side without its bytes.
fn without_bytes(right: Right) -> Right
    ensures { result ≡ spec.without_bytes right }
{
    match right {
        Right::Empty => Right::Empty,
        Right::One(a) => {
            if is_no_byte(a) {
                Right::One(a)
            } else {
                Right::Empty
            }
        }
        Right::Two(a, b) => match (is_no_byte(a), is_no_byte(b)) {
            (true, true) => Right::Two(a, b),
            (true, false) => Right::One(a),
            (false, true) => Right::One(b),
            (false, false) => Right::Empty,
        },
    }
}

/// A production without the bytes on its right.
fn production_without_bytes(production: Production) -> Production
    ensures { result ≡ production_without_bytes production }
{
    Production {
        left: production.left,
        right: without_bytes(production.right),
    }
}

/// Productions without the bytes on their right, in their order.
fn all_without_bytes(alloc: Global, productions: &[Production]) -> Result<Vec<Production>, NoMemory>
    ensures { IfOk result
        (λ made. made.items ≡ map production_without_bytes productions.now) }
{
    let mut made = Vec::new(alloc);
    for production in productions {
        made.push(production_without_bytes(*production))?;
    }
    Ok(made)
}

/// The grammar without the bytes of its productions.
fn grammar_without_bytes(alloc: Global, grammar: &Grammar) -> Result<Grammar, NoMemory>
    ensures start { IfOk result (λ made. made.start ≡ grammar.now.start) }
    ensures count { IfOk result (λ made. made.count ≡ grammar.now.count) }
    ensures productions { IfOk result
        (λ made. made.productions.items
        ≡ map production_without_bytes grammar.now.productions.items) }
{
    let productions = all_without_bytes(alloc, grammar.productions.as_slice())?;
    match Grammar::new(grammar.start, grammar.count, productions) {
        Some(made) => Ok(made),
        None => unreachable!(),
    }
}

/// A grammar of the token lists of the texts that a grammar derives, as the machine puts them out:
/// with at most `items` items of the image. It has as many nonterminals and productions as the
/// grammar of the texts with their tokens by which `decide_texts` decides.
///
/// # Errors
///
/// `Large` only where the image has at least so many items, over `items`. `Memory` may come at any
/// time.
pub fn tokens_of<M: Machine>(
    alloc: Global,
    grammar: &Grammar,
    machine: &M,
    items: u64,
) -> Result<TokenGrammar, ImageRefusal>
    requires { IsEchoing (M.first machine.now) (M.steps machine.now) (M.ends machine.now) }
    ensures tokens { IfOk result
        (λ made. DeriveTokenLists (DerivesText grammar.now.productions.items
        (symbols.Symbol.Nt grammar.now.start))
        (PutsTokens (M.first machine.now) (M.steps machine.now) (M.ends machine.now))
        made.grammar.productions.items made.grammar.start) }
    ensures small { IfOk result
        (λ made. IsSmall grammar.now.productions.items (M.steps machine.now) (M.ends machine.now)
        grammar.now.start (M.first machine.now) made.grammar.count
        (length made.grammar.productions.items)) }
    ensures made { IfOk result
        (IsTokenGrammar grammar.now (M.first machine.now) (M.steps machine.now)
        (M.ends machine.now)) }
    ensures cause { IfErr result
        (IsCause grammar.now.productions.items (M.steps machine.now) grammar.now.start
        (M.first machine.now) items) }
{
    let echo = echo(alloc, grammar, machine, items)?;
    match grammar_without_bytes(alloc, &echo.grammar) {
        Ok(grammar) => Ok(TokenGrammar { grammar, echo }),
        Err(_) => Err(ImageRefusal::Memory),
    }
}

/// The same of pages by a definition: the sentences of the grammar are exactly the lists of tags,
/// text and other pieces of the pages.
///
/// # Errors
///
/// As those of `tokens_of`.
pub fn page_tokens_of<M: Machine>(
    alloc: Global,
    grammar: &Grammar,
    dtd: &Dtd,
    machine: &M,
    items: u64,
) -> Result<TokenGrammar, ImageRefusal>
    requires { IsPageMachine (table_of dtd.now) (M.first machine.now) (M.steps machine.now)
        (M.ends machine.now) }
    ensures tokens { IfOk result
        (λ made. DeriveTokenLists (DerivesText grammar.now.productions.items
        (symbols.Symbol.Nt grammar.now.start))
        (PageTokens (table_of dtd.now)) made.grammar.productions.items made.grammar.start) }
    ensures made { IfOk result
        (IsTokenGrammar grammar.now (M.first machine.now) (M.steps machine.now)
        (M.ends machine.now)) }
    ensures cause { IfErr result
        (IsCause grammar.now.productions.items (M.steps machine.now) grammar.now.start
        (M.first machine.now) items) }
{
    let _ = dtd;
    page_model::one_token_list();
    texts_fit(grammar);
    tokens_of(alloc, grammar, machine, items)
}
