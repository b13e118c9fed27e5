//! Systems of productions and operations.

ghost use Rattle.std.specs.Prelude.{◌≡◌, ◌<◌, ◌↔◌, IsTrue, IsSome, IfSome};
ghost use Rattle.std.specs.List.{list_all};
ghost use Rattle.cfg_grammar.specs.Tokens.{HaveNoToken};
ghost use Rattle.op_system.specs.Rules.{RulesAreBelow, rule_below};

use crate::op::Op;
use cfg_grammar::Grammar;
use text_base::Nt;

/// The nonterminal on the left has the outputs of the operation on the texts of the operand.
#[derive(Debug, Drop)]
pub struct OpRule {
    pub left: Nt,
    pub op: Op,
    pub operand: Nt,
}

/// A grammar together with rules by operations. The type keeps that each of its nonterminals is
/// below the count of the grammar, and that no page token stands in it.
#[derive(Debug, Drop)]
pub struct OpSystem {
    pub grammar: Grammar,
    pub ops: Vec<OpRule>,
    pub start: Nt,
    ghost start_below: { start.0 < grammar.count },
    ghost rules_below: { RulesAreBelow grammar.count ops.items },
    ghost no_token: { HaveNoToken grammar.productions.items },
}

impl OpSystem {
    /// The system of this grammar and these rules; None exactly where the start or a nonterminal
    /// of a rule is not below the count of the grammar, or where a page token stands in it.
    pub fn new(grammar: Grammar, ops: Vec<OpRule>, start: Nt) -> Option<OpSystem>
        ensures kept { IfSome result
            (λ s. (s.grammar ≡ grammar) × (s.ops.items ≡ ops.items) × (s.start ≡ start)) }
        ensures variant { IsSome result ↔
            ((start.0 < grammar.count) × RulesAreBelow grammar.count ops.items
            × HaveNoToken grammar.productions.items) }
    {
        if start.0 < grammar.count && are_below(grammar.count, &ops) && grammar.is_without_token() {
            Some(OpSystem {
                grammar,
                ops,
                start,
            })
        } else {
            None
        }
    }
}

/// Whether each nonterminal of the rules is below the count.
fn are_below(count: u64, ops: &[OpRule]) -> bool
    ensures { result ≡ list_all (rule_below count) ops.now }
{
    ops.iter()
        .all(|rule| rule.left.0 < count && rule.operand.0 < count)
}
