//! The grammar of an image.

ghost use Rattle.std.specs.Prelude.{◌≡◌, IfOk};
ghost use Rattle.chart_grammar.specs.Images.{IsImageOf};
ghost use Rattle.chart_grammar.specs.Sources.{AreSources, NoneIsOfToken};

use crate::lifts::{Last, write_wholes};
use crate::outputs::{write_ends, write_fronts, write_readings};
use crate::saying::outputs_of;
use cfg_grammar::{Grammar, Production};
use grammar_chart::Chart;
use numbered_sets::count;
use std::alloc::Global;
use text_base::{NoMemory, Nt};

/// The grammar of an image, and where its productions come from.
#[derive(Drop)]
pub struct SourcedGrammar {
    pub grammar: Grammar,
    /// For each of the first productions, the place of the one that it comes of.
    pub sources: Vec<u64>,
}

/// The grammar of all productions of the image: the start is 0, the passage k has the nonterminal k
/// + 1, and the fronts of outputs come behind. The productions that come of those of the grammar
/// come first, with their places.
pub fn grammar_of(
    alloc: Global,
    productions: &[Production],
    chart: &Chart,
    lasts: &[Last],
) -> Result<SourcedGrammar, NoMemory>
    ensures image { IfOk result
        (λ made. IsImageOf productions.now chart.now lasts.now made.grammar) }
    ensures sources { IfOk result (λ made. NoneIsOfToken chart.now.passages.keys
        → AreSources productions.now chart.now.from chart.now.passages.keys made.sources.items
        made.grammar.productions.items) }
{
    let base = count(&chart.passages) as u64 + 1;
    let passages = &chart.passages;
    let mut wholes = Vec::new(alloc);
    let mut sources = Vec::new(alloc);
    let begun = chart.begun.as_slice();
    write_wholes(productions, passages, &mut wholes, &mut sources, begun)?;
    let mut outputs = outputs_of(alloc, wholes);
    let readings = chart.readings.as_slice();
    write_readings(alloc, passages, base, &mut outputs, readings)?;
    write_ends(alloc, passages, base, &mut outputs, chart.from, lasts)?;
    let _said = count(&outputs.said);
    let _heads = count(&outputs.heads);
    let (fronts, mut out) = outputs.into_parts();
    let total = base + count(&fronts) as u64;
    write_fronts(fronts.as_slice(), base, total, &mut out)?;
    match Grammar::new(Nt(0), total, out) {
        Some(grammar) => Ok(SourcedGrammar { grammar, sources }),
        None => unreachable!(),
    }
}
