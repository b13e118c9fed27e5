//! What the nodes of a derivation of an image lead back to.

ghost use Rattle.std.specs.Prelude.{◌≡◌, [], ℕ, List, None, length, slice_get, slice_index_or, IfOk, IfSome, IsTrue};
ghost use Rattle.text_base.specs.declared.numbers.Nt as nt;
ghost use Rattle.cfg_grammar.specs.declared.production.Production as productions;
ghost use Rattle.derivations.specs.Nodes.{parts_below};
ghost use Rattle.derivations.specs.Lawful.{AreLawful};
ghost use Rattle.grammar_chart.specs.declared.keys.Passage as passages;
ghost use Rattle.chart_grammar.specs.Sources.{AreSources};
ghost use Rattle.grammar_image.specs.Echoes.{CopiesBytes};
ghost use Rattle.grammar_image.specs.Firsts.{AreFirsts};
ghost use Rattle.grammar_image.specs.Leads.{led_part, one_led, two_led, led_parts, byte_part, Pushes, Comes, Leads, first_led};
ghost use Rattle.grammar_image.specs.Marks.{marked_at, AreUnderRoot};
ghost use Rattle.grammar_image.specs.Traces.{AreTraces, AreMade};

use derivations::{Node, Nodes, Part, Parts};
use std::alloc::Global;
use text_base::NoMemory;

/// What a part leads back to.
fn led_part(leads: &[Option<Part>], part: Part) -> Option<Part>
    ensures { result ≡ led_part leads.now part }
{
    match part {
        Part::Byte(byte) => Some(Part::Byte(byte)),
        Part::Token(_) => None,
        Part::Inner(node) => match leads.get(node as usize) {
            Some(lead) => *lead,
            None => None,
        },
    }
}

/// One part, where there is one.
fn one_led(part: Option<Part>) -> Option<Parts>
    ensures { result ≡ one_led part }
{
    match part {
        Some(a) => Some(Parts::One(a)),
        None => None,
    }
}

/// Two parts, where there are both.
fn two_led(first: Option<Part>, second: Option<Part>) -> Option<Parts>
    ensures { result ≡ two_led first second }
{
    match (first, second) {
        (None, _) => None,
        (Some(_), None) => None,
        (Some(a), Some(b)) => Some(Parts::Two(a, b)),
    }
}

/// What parts lead back to.
fn led_parts(leads: &[Option<Part>], parts: Parts) -> Option<Parts>
    ensures { result ≡ led_parts leads.now parts }
{
    match parts {
        Parts::Empty => Some(Parts::Empty),
        Parts::One(a) => one_led(led_part(leads, a)),
        Parts::Two(a, b) => two_led(led_part(leads, a), led_part(leads, b)),
    }
}

/// What the first of parts leads back to.
pub(crate) fn first_led(leads: &[Option<Part>], parts: Parts) -> Option<Part>
    ensures { result ≡ first_led leads.now parts }
{
    match parts {
        Parts::Empty => None,
        Parts::One(a) => led_part(leads, a),
        Parts::Two(a, _) => led_part(leads, a),
    }
}

/// The byte as a part.
fn byte_part(byte: Option<u8>) -> Option<Part>
    ensures { result ≡ byte_part byte }
{
    match byte {
        Some(byte) => Some(Part::Byte(byte)),
        None => None,
    }
}

/// The place that a production comes of.
fn source_at(sources: &[u64], production: u64) -> Option<u64>
    ensures { result ≡ slice_get sources.now production }
{
    sources.get(production as usize).copied()
}

/// The first byte of a node.
fn first_at(firsts: &[Option<u8>], node: usize) -> Option<u8>
    ensures { result ≡ slice_index_or firsts.now node None }
{
    match firsts.get(node) {
        Some(first) => *first,
        None => None,
    }
}

/// Whether a node is marked.
fn marked_at(marks: &[bool], node: usize) -> bool
    ensures { result ≡ marked_at marks.now node }
{
    match marks.get(node) {
        Some(mark) => *mark,
        None => false,
    }
}

/// Puts a use of a production behind the others, if there are parts for it.
fn push_led(
    made: &mut Nodes,
    production: u64,
    parts: Option<Parts>,
) -> Result<Option<Part>, NoMemory>
    requires { IfSome parts (λ parts. IsTrue (parts_below (length made.old.nodes.items) parts)) }
    ensures { IfOk result
        (λ lead. Pushes made.old.nodes.items made.new.nodes.items production parts lead) }
{
    match parts {
        None => Ok(None),
        Some(parts) => {
            let place = made.len() as u64;
            made.push(production, parts)?;
            Ok(Some(Part::Inner(place)))
        }
    }
}

/// What a node leads back to whose production comes of this one.
fn come(
    made: &mut Nodes,
    leads: &[Option<Part>],
    source: Option<u64>,
    first: Option<u8>,
    parts: Parts,
) -> Result<Option<Part>, NoMemory>
    requires { AreMade made.old.nodes.items leads.now }
    ensures { IfOk result
        (λ lead. Comes made.old.nodes.items made.new.nodes.items leads.now source first parts lead) }
{
    match source {
        None => Ok(byte_part(first)),
        Some(place) => push_led(made, place, led_parts(leads, parts)),
    }
}

/// What a node leads back to, if it is marked.
fn lead(
    made: &mut Nodes,
    leads: &[Option<Part>],
    sources: &[u64],
    is_marked: bool,
    first: Option<u8>,
    node: Node,
) -> Result<Option<Part>, NoMemory>
    requires { AreMade made.old.nodes.items leads.now }
    ensures { IfOk result (λ lead. Leads is_marked made.old.nodes.items made.new.nodes.items
        leads.now sources.now first node lead) }
{
    if is_marked {
        let source = source_at(sources, node.production);
        come(made, leads, source, first, node.parts)
    } else {
        Ok(None)
    }
}

/// What the nodes lead back to.
pub(crate) fn leads_of(
    alloc: Global,
    sources: &[u64],
    nodes: &[Node],
    marks: &[bool],
    firsts: &[Option<u8>],
    made: &mut Nodes,
) -> Result<Vec<Option<Part>>, NoMemory>
    requires lawful { AreLawful nodes.now }
    requires marks { AreUnderRoot nodes.now marks.now }
    requires firsts { AreFirsts nodes.now firsts.now }
    requires all_firsts { length firsts.now ≡ length nodes.now }
    requires none { made.old.nodes.items ≡ [] }
    ensures traces { IfOk result
        (λ leads. (ps qs : List productions.Production) (start : nt.Nt) (fs : List passages.Passage)
        → AreSources ps start fs sources.now qs → CopiesBytes start fs qs
        → AreTraces ps fs qs nodes.now marks.now made.new.nodes.items leads.items) }
    ensures all { IfOk result (λ leads. length leads.items ≡ length nodes.now) }
{
    let mut leads = Vec::new(alloc);
    for (place, node) in nodes.iter().enumerate() {
        let is_marked = marked_at(marks, place);
        let first = first_at(firsts, place);
        let lead = lead(made, leads.as_slice(), sources, is_marked, first, *node)?;
        leads.push(lead)?;
    }
    Ok(leads)
}
