//! The decision.

ghost use Rattle.std.specs.Prelude.{◌≡◌, ◌<◌, [], All, IfErr, IfOk, OnOk, length};
ghost use Rattle.summary_decision.specs.Pairs.{AreWhole};
ghost use Rattle.numbered_sets.specs.Chains.{AreChains};
ghost use Rattle.summary_decision.specs.Tables.{IsTable};
ghost use Rattle.summary_decision.specs.Halts.{Explains};
ghost use Rattle.summary_decision.specs.Verdicts.{IsVerdict};

use crate::running::work;
use crate::{Halt, Question, Side, Table, Taken, Uses, Verdict, uses_on};
use cfg_grammar::Grammar;
use derivations::{Derivation, Nodes};
use indexmap::IndexSet;
use numbered_sets::Chains;
use std::alloc::Global;
use std::hash::Hash;
use tag_sums::Summary;
use text_base::{Exact, NoMemory};
use useful_nonterminals::useful_nonterminals;

/// The verdict where the work ended before all pairs were found.
fn halted<S: Summary>(
    question: &Question<S>,
    table: Table<S::Sum>,
    halt: Halt,
) -> Result<Verdict, NoMemory>
    requires { Explains (S.sum_of question.now.summary.now) (S.is_whole question.now.summary.now)
        (S.tag_count question.now.summary.now) question.now.grammar.now.productions.items
        question.now.grammar.now.start question.now.limit table.nodes.nodes.items table.height
        halt }
    ensures { IfOk result
        (λ v. IsVerdict (S.sum_of question.now.summary.now) (S.is_whole question.now.summary.now)
        (S.tag_count question.now.summary.now) question.now.grammar.now.productions.items
        question.now.grammar.now.start question.now.limit v) }
{
    let Some(height) = table.height.checked_add(1) else {
        return Err(NoMemory);
    };
    match halt {
        Halt::Memory => Err(NoMemory),
        Halt::NotWhole => Ok(Verdict::No(Derivation::new(table.nodes))),
        Halt::TooMany(count) => Ok(Verdict::Pairs { count, height }),
        Halt::TooLong(count) => Ok(Verdict::Tags { count, height }),
    }
}

/// The verdict by how the work ended.
fn verdict<S: Summary>(
    question: &Question<S>,
    table: Table<S::Sum>,
    ended: Result<(), Halt>,
) -> Result<Verdict, NoMemory>
    requires whole { OnOk ended
        (AreWhole (S.sum_of question.now.summary.now) (S.is_whole question.now.summary.now)
        question.now.grammar.now.productions.items question.now.grammar.now.start) }
    requires explained { IfErr ended
        (λ h. Explains (S.sum_of question.now.summary.now) (S.is_whole question.now.summary.now)
        (S.tag_count question.now.summary.now) question.now.grammar.now.productions.items
        question.now.grammar.now.start question.now.limit table.nodes.nodes.items table.height
        h) }
    ensures { IfOk result
        (λ v. IsVerdict (S.sum_of question.now.summary.now) (S.is_whole question.now.summary.now)
        (S.tag_count question.now.summary.now) question.now.grammar.now.productions.items
        question.now.grammar.now.start question.now.limit v) }
{
    match ended {
        Ok(()) => Ok(Verdict::Yes),
        Err(halt) => halted(question, table, halt),
    }
}

/// A count of 0 for each nonterminal.
fn zeros(alloc: Global, count: u64) -> Result<Vec<u64>, NoMemory>
    ensures len { IfOk result (λ counts. length counts.items ≡ count) }
    ensures zero { IfOk result (λ counts. All (λ n. n ≡ 0) counts.items) }
{
    let mut counts = Vec::new(alloc);
    for _ in 0..count {
        counts.push(0)?;
    }
    Ok(counts)
}

/// A table with no pair.
fn empty_table<T: Exact + Hash + Drop>(alloc: Global, count: u64) -> Result<Table<T>, NoMemory>
    ensures entries { IfOk result (λ t. t.entries.keys ≡ []) }
    ensures joins { IfOk result (λ t. t.joins.keys ≡ []) }
    ensures joined { IfOk result (λ t. t.joined.items ≡ []) }
    ensures nodes { IfOk result (λ t. t.nodes.nodes.items ≡ []) }
    ensures len { IfOk result (λ t. length t.counts.items ≡ count) }
    ensures zero { IfOk result (λ t. All (λ n. n ≡ 0) t.counts.items) }
    ensures height { IfOk result (λ t. t.height ≡ 0) }
    ensures bound { IfOk result (λ t. t.bound ≡ 0) }
{
    let counts = zeros(alloc, count)?;
    Ok(Table {
        sums: IndexSet::new(alloc),
        joins: IndexSet::new(alloc),
        joined: Vec::new(alloc),
        entries: IndexSet::new(alloc),
        nodes: Nodes::new(alloc),
        counts,
        height: 0,
        bound: 0,
    })
}

/// No pair that is taken up.
fn none_taken(alloc: Global, count: u64) -> Result<Taken, NoMemory>
    ensures chains { IfOk result (λ taken. AreChains [] taken.chains.last.items
        taken.chains.before.items) }
    ensures len { IfOk result (λ taken. length taken.chains.last.items ≡ count) }
{
    let mut chains = Chains::new(alloc);
    chains.widen(count)?;
    Ok(Taken { chains })
}

/// Whether each sentence of a grammar is whole by a summary, with at most `pairs` different sums
/// of sentences a nonterminal and `TAG_LIMIT` unmatched tags a sum (Knuth, A generalization of
/// Dijkstra's algorithm, 1977, for heights in place of lengths). Each production is composed once
/// with each two pairs. The first that is found of a sentence that is not whole and a limit that
/// is passed decides, in the order of least heights.
pub fn decide<S: Summary>(
    alloc: Global,
    summary: &S,
    grammar: &Grammar,
    pairs: u64,
) -> Result<Verdict, NoMemory>
    ensures { IfOk result (λ v. IsVerdict (S.sum_of summary.now) (S.is_whole summary.now)
        (S.tag_count summary.now) grammar.now.productions.items grammar.now.start pairs v) }
{
    let useful = useful_nonterminals(alloc, grammar)?;
    let firsts = uses_on(alloc, Side::First, grammar, useful.as_slice())?;
    let seconds = uses_on(alloc, Side::Second, grammar, useful.as_slice())?;
    let mut table = empty_table(alloc, grammar.count)?;
    let mut taken = none_taken(alloc, grammar.count)?;
    let uses = Uses { firsts, seconds };
    let question = Question {
        alloc,
        summary,
        grammar,
        limit: pairs,
    };
    let ended = work(&question, &mut table, &uses, useful.as_slice(), &mut taken);
    let answer = verdict(&question, table, ended);
    let Question {
        alloc: _,
        summary: _,
        grammar: _,
        limit: _,
    } = question;
    answer
}
