//! The decision.

ghost use Rattle.std.specs.Prelude.{ℕ, IfOk};
ghost use Rattle.derivatives.specs.Expressions.{Expr};
ghost use Rattle.derivatives.specs.Standing.{expr_at, IsExpr, Grows};
ghost use Rattle.policy_matching.specs.Matching.{IsAnswer};
ghost use Rattle.policy_matching.specs.Outside.{IsOutside};

use crate::answer::Match;
use crate::exploring::outside_of;
use crate::outside::Outside;
use crate::refusal::StatesRefusal;
use cfg_grammar::Grammar;
use derivatives::Arena;
use dyck_balance::Nesting;
use echoing_machine::Echoing;
use grammar_image::ImageRefusal;
use page_decision::{find_wrong, texts_fit};
use std::alloc::Global;
use text_base::NoMemory;

/// The most different sums of the sentences of a nonterminal by the tokens of the reader: a
/// sentence has a bad token or none.
const SUMS: u64 = 2;

/// The answer by the reader of an expression.
fn match_by(
    alloc: Global,
    grammar: &Grammar,
    outside: Outside,
    items: u64,
) -> Result<Match, NoMemory>
    ensures { IfOk result (λ answer. (e : Expr) → IsOutside e outside.rows.items
        → IsAnswer e grammar.now items answer) }
{
    texts_fit(grammar);
    let machine = Echoing { reader: outside };
    let nesting = Nesting::new();
    match find_wrong(alloc, grammar, &machine, &nesting, items, SUMS) {
        Ok(Some(derivation)) => Ok(Match::Miss(derivation)),
        Ok(None) => Ok(Match::All),
        Err(ImageRefusal::Large { items }) => Ok(Match::Items { count: items }),
        Err(ImageRefusal::Memory) => Err(NoMemory),
    }
}

/// Whether each text that the grammar derives matches the expression with this number, with at most
/// `items` items of the image. Linear in the grammar for one expression: its derivatives are listed
/// before, up to `STATE_LIMIT`. For want of memory too each number of the arena goes on to stand
/// for what it stood for.
pub fn match_all(
    alloc: Global,
    grammar: &Grammar,
    arena: &mut Arena,
    root: usize,
    items: u64,
) -> Result<Match, NoMemory>
    requires { IsExpr arena.old root }
    ensures answer { IfOk result (IsAnswer (expr_at arena.old root) grammar.now items) }
    ensures grows { Grows arena.old arena.new }
{
    match outside_of(alloc, arena, root) {
        Ok(outside) => match_by(alloc, grammar, outside, items),
        Err(StatesRefusal::States { count }) => Ok(Match::States { count }),
        Err(StatesRefusal::Memory) => Err(NoMemory),
    }
}
