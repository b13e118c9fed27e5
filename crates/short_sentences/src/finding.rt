//! The shortest sentence that is not whole.

ghost use Rattle.std.specs.Prelude.{◌≡◌, ◌<◌, [], All, IfErr, IfOk, OnOk, length};
ghost use Rattle.numbered_sets.specs.Chains.{AreChains};
ghost use Rattle.summary_decision.specs.Pairs.{AreWhole};
ghost use Rattle.short_sentences.specs.Halts.{Explains};
ghost use Rattle.short_sentences.specs.ShortAnswers.{IsShortAnswer};
ghost use Rattle.short_sentences.specs.Queues.{waiting};

use crate::answer::ShortAnswer;
use crate::queue::Queue;
use crate::running::work;
use crate::sums::Sums;
use crate::table::Table;
use crate::taken::Taken;
use cfg_grammar::Grammar;
use derivations::{Derivation, Nodes};
use indexmap::IndexSet;
use numbered_sets::Chains;
use std::alloc::Global;
use std::hash::Hash;
use summary_decision::{Halt, Question, Side, Uses, uses_on};
use tag_sums::Summary;
use text_base::{Exact, NoMemory};
use useful_nonterminals::useful_nonterminals;

/// The answer where the work ended before all pairs were taken up.
fn halted<S: Summary>(
    question: &Question<S>,
    taken: Taken,
    halt: Halt,
) -> Result<ShortAnswer, NoMemory>
    requires { Explains (S.sum_of question.now.summary.now) (S.is_whole question.now.summary.now)
        (S.tag_count question.now.summary.now) question.now.grammar.now.productions.items
        question.now.grammar.now.start question.now.limit taken.nodes.nodes.items taken.length
        halt }
    ensures { IfOk result (λ answer. IsShortAnswer (S.sum_of question.now.summary.now) (S.is_whole
        question.now.summary.now) (S.tag_count question.now.summary.now)
        question.now.grammar.now.productions.items question.now.grammar.now.start
        question.now.limit answer) }
{
    let _ = question;
    let length = taken.length;
    match halt {
        Halt::Memory => Err(NoMemory),
        Halt::NotWhole => Ok(ShortAnswer::Shortest(Derivation::new(taken.nodes))),
        Halt::TooMany(count) => Ok(ShortAnswer::Pairs { count, length }),
        Halt::TooLong(count) => Ok(ShortAnswer::Tags { count, length }),
    }
}

/// The answer by how the work ended.
fn answer<S: Summary>(
    question: &Question<S>,
    taken: Taken,
    ended: Result<(), Halt>,
) -> Result<ShortAnswer, NoMemory>
    requires whole { OnOk ended (AreWhole (S.sum_of question.now.summary.now) (S.is_whole
        question.now.summary.now) question.now.grammar.now.productions.items
        question.now.grammar.now.start) }
    requires explained { IfErr ended (λ h. Explains (S.sum_of question.now.summary.now)
        (S.is_whole question.now.summary.now) (S.tag_count question.now.summary.now)
        question.now.grammar.now.productions.items question.now.grammar.now.start
        question.now.limit taken.nodes.nodes.items taken.length h) }
    ensures { IfOk result (λ answer. IsShortAnswer (S.sum_of question.now.summary.now) (S.is_whole
        question.now.summary.now) (S.tag_count question.now.summary.now)
        question.now.grammar.now.productions.items question.now.grammar.now.start
        question.now.limit answer) }
{
    match ended {
        Ok(()) => Ok(ShortAnswer::Whole),
        Err(halt) => halted(question, taken, halt),
    }
}

/// A count of 0 for each nonterminal.
fn zeros(alloc: Global, count: u64) -> Result<Vec<u64>, NoMemory>
    ensures len { IfOk result (λ counts. length counts.items ≡ count) }
    ensures zero { IfOk result (λ counts. All (λ n. n ≡ 0) counts.items) }
{
    let mut counts = Vec::new(alloc);
    for _ in 0..count {
        counts.push(0)?;
    }
    Ok(counts)
}

/// A table with no pair.
fn empty_table<T: Exact + Hash + Drop>(alloc: Global) -> Table<T>
    ensures found { result.found.keys ≡ [] }
    ensures joins { result.sums.joins.keys ≡ [] }
    ensures joined { result.sums.joined.items ≡ [] }
    ensures drafts { result.drafts.items ≡ [] }
{
    Table {
        sums: Sums::new(alloc),
        found: IndexSet::new(alloc),
        drafts: Vec::new(alloc),
        queue: Queue::new(alloc),
    }
}

/// No pair that is taken up.
fn none_taken(alloc: Global, count: u64) -> Result<Taken, NoMemory>
    ensures entries { IfOk result (λ taken. taken.entries.items ≡ []) }
    ensures nodes { IfOk result (λ taken. taken.nodes.nodes.items ≡ []) }
    ensures len { IfOk result (λ taken. length taken.counts.items ≡ count) }
    ensures zero { IfOk result (λ taken. All (λ n. n ≡ 0) taken.counts.items) }
    ensures first { IfOk result (λ taken. taken.length ≡ 0) }
{
    let counts = zeros(alloc, count)?;
    Ok(Taken {
        entries: Vec::new(alloc),
        nodes: Nodes::new(alloc),
        counts,
        length: 0,
    })
}

/// A shortest sentence of the grammar that is not whole by the summary, with at most `pairs`
/// different sums of sentences a nonterminal and `TAG_LIMIT` unmatched tags a sum (Knuth, A
/// generalization of Dijkstra's algorithm, 1977). Pairs of a nonterminal and a sum are taken up in
/// the order of the least lengths of their sentences; each production is composed once with each
/// two pairs. Of a sentence that is not whole and a limit that is passed, the one that is met
/// first decides.
pub fn find_shortest<S: Summary>(
    alloc: Global,
    summary: &S,
    grammar: &Grammar,
    pairs: u64,
) -> Result<ShortAnswer, NoMemory>
    ensures { IfOk result (λ answer. IsShortAnswer (S.sum_of summary.now) (S.is_whole summary.now)
        (S.tag_count summary.now) grammar.now.productions.items grammar.now.start pairs answer) }
{
    let useful = useful_nonterminals(alloc, grammar)?;
    let firsts = uses_on(alloc, Side::First, grammar, useful.as_slice())?;
    let seconds = uses_on(alloc, Side::Second, grammar, useful.as_slice())?;
    let uses = Uses { firsts, seconds };
    let mut table = empty_table(alloc);
    let mut taken = none_taken(alloc, grammar.count)?;
    let mut chains = Chains::new(alloc);
    chains.widen(grammar.count)?;
    let question = Question {
        alloc,
        summary,
        grammar,
        limit: pairs,
    };
    let ended = work(
        &question,
        &uses,
        useful.as_slice(),
        &mut table,
        &mut taken,
        &mut chains,
    );
    let answer = answer(&question, taken, ended);
    let Question {
        alloc: _,
        summary: _,
        grammar: _,
        limit: _,
    } = question;
    answer
}
