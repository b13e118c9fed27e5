//! What may stand in elements besides elements, and which element is the root.

ghost use Rattle.std.specs.Prelude.{◌≡◌, ◌+◌, ◌<◌, List, map, length, codes, IfOk};
ghost use Rattle.dtd_model.specs.Table.{Rule, rule_of, holding_of};
ghost use Rattle.page_model.specs.Valid.{place_of};
ghost use Rattle.page_automata.specs.PageAutomaton as spec;
ghost use Rattle.segment_summary.specs.View.{mark_keeps};

use dtd_model::{Content, DoctypeRule, ElementRule};
use page_automata::Besides;
use std::alloc::Global;
use text_base::NoMemory;

/// What is no element.
#[derive(Clone, Copy, Debug, PartialEq, Eq)]
pub enum Mark {
    Blank,
    Text,
    Misc,
    Doctype,
}

fn besides_of(content: &Content) -> Besides
    ensures { result ≡ spec.besides_of (holding_of content.now) }
{
    match content {
        Content::Empty => Besides::Nothing,
        Content::Any => Besides::Anything,
        Content::Mixed(_) => Besides::Anything,
        Content::Children(_) => Besides::Between,
    }
}

/// What may stand in each element.
pub fn besides_of_all(alloc: Global, elements: &[ElementRule]) -> Result<Vec<Besides>, NoMemory>
    ensures { IfOk result
        (λ v. v.items ≡ map (λ (r : Rule). spec.besides_of r.holding) (map rule_of elements.now)) }
{
    let mut besides = Vec::new(alloc);
    for element in elements {
        besides.push(besides_of(&element.content))?;
    }
    Ok(besides)
}

/// The place of the root among the declared elements; their number where it is not declared.
pub fn root_of(elements: &[ElementRule]) -> u64
    ensures { result ≡ place_of (map rule_of elements.now) (codes "html") }
{
    let mut rest = elements;
    let mut place = 0;
    while let Some((first, others)) = rest.split_first() {
        if first.name.as_slice() == b"html".as_slice() {
            return place;
        }
        place += 1;
        rest = others;
    }
    place
}

/// Whether the root may stand without a document type declaration.
pub fn is_free(rule: DoctypeRule) -> bool
    ensures { result ≡ spec.is_free rule }
{
    matches!(rule, DoctypeRule::Free)
}

/// Whether the mark may stand in an element.
pub fn may_stand(besides: Besides, mark: Mark) -> bool
    ensures { result ≡ mark_keeps besides mark }
{
    match (besides, mark) {
        (_, Mark::Doctype) => false,
        (Besides::Nothing, _) => false,
        (Besides::Between, Mark::Text) => false,
        (Besides::Between, _) => true,
        (Besides::Anything, _) => true,
    }
}
