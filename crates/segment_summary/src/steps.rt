//! The steps of the automaton of a document type definition.

ghost use Rattle.std.specs.Prelude.{◌≡◌, ◌<◌, ◌≤◌, length, map, IfOk, nat_lt};
ghost use Rattle.std.specs.List.{range_with_len};
ghost use Rattle.dtd_model.specs.TableOf.{table_of};
ghost use Rattle.content_automata.specs.declared.limits.TheConstants.{STATE_LIMIT};
ghost use Rattle.content_automata.specs.Decides.{HasOwners};
ghost use Rattle.tag_sums.specs.Labels.{child, other};
ghost use Rattle.tag_sums.specs.Sum.{by_label, by_state};
ghost use Rattle.page_automata.specs.PageAutomaton.{Parts, parts_of, inner_step, page_step, page_init, page_closes, page_automaton};
ghost use Rattle.segment_summary.specs.Parts.{parts_in, automaton_of};
ghost use Rattle.segment_summary.specs.View.{mark_of};

use crate::rules::{Mark, besides_of_all, is_free, may_stand, root_of};
use crate::segments::Segments;
use crate::state_set::StateSet;
use content_automata::Contents;
use dtd_model::Dtd;
use std::alloc::Global;
use text_base::{Elem, NoMemory};

impl Segments {
    /// The summary by a definition and the automata that were built of it.
    pub fn new(alloc: Global, contents: Contents, dtd: &Dtd) -> Result<Segments, NoMemory>
        requires owners { HasOwners (length (table_of dtd.now).elements) contents }
        requires firsts { length contents.0 ≡ length (table_of dtd.now).elements }
        requires few { length contents.1 ≤ STATE_LIMIT }
        ensures { IfOk result (λ s. parts_in s ≡ parts_of (table_of dtd.now) contents) }
    {
        let besides = besides_of_all(alloc, dtd.elements.as_slice())?;
        let root = root_of(dtd.elements.as_slice());
        let is_free = is_free(dtd.doctype);
        Ok(Segments {
            contents,
            besides,
            root,
            is_free,
        })
    }

    /// How many states there are, those of the page among them.
    pub(crate) fn count(&self) -> u16
        ensures { result ≡ (automaton_of self.now).count }
    {
        (self.contents.len() + 3) as u16
    }

    /// The state before all of the page.
    pub(crate) fn page_start(&self) -> u16
        ensures { result ≡ (automaton_of self.now).page_start }
    {
        self.contents.len() as u16
    }

    /// The state behind the root.
    pub(crate) fn page_done(&self) -> u16
        ensures { result ≡ (automaton_of self.now).page_done }
    {
        (self.contents.len() + 2) as u16
    }

    /// The state that an element begins in.
    pub(crate) fn init(&self, element: Elem) -> Option<u16>
        ensures { result ≡ page_init (parts_in self.now) element.0 }
    {
        if usize::from(element.0) < self.besides.len() {
            Some(self.contents.init(element))
        } else {
            None
        }
    }

    /// Whether an element may end in the state.
    pub(crate) fn closes(&self, element: Elem, state: u16) -> bool
        ensures { result ≡ page_closes (parts_in self.now) element.0 state }
    {
        usize::from(state) < self.contents.len()
            && (self.contents.owner(state) == u64::from(element.0) && self.contents.accepts(state))
    }

    fn inner_child(&self, state: u16, element: Elem) -> Option<u16>
        ensures { result ≡ inner_step (parts_in self.now) state (child element.0) }
    {
        if usize::from(element.0) < self.besides.len() {
            self.contents.step(state, element)
        } else {
            None
        }
    }

    fn inner_mark(&self, state: u16, mark: Mark) -> Option<u16>
        ensures { result ≡ inner_step (parts_in self.now) state (other (mark_of mark)) }
    {
        match self.besides.get(self.contents.owner(state) as usize) {
            Some(besides) => {
                if may_stand(*besides, mark) {
                    Some(state)
                } else {
                    None
                }
            }
            None => None,
        }
    }

    /// The state behind a child.
    pub(crate) fn child_step(&self, state: u16, element: Elem) -> Option<u16>
        ensures { result ≡ page_step (parts_in self.now) state (child element.0) }
    {
        let count = self.contents.len();
        let at = usize::from(state);
        let is_root = u64::from(element.0) == self.root;
        if at < count {
            self.inner_child(state, element)
        } else if at == count {
            if self.is_free && is_root {
                Some((count + 2) as u16)
            } else {
                None
            }
        } else if at == count + 1 {
            if is_root {
                Some((count + 2) as u16)
            } else {
                None
            }
        } else {
            None
        }
    }

    /// The state behind a mark.
    pub(crate) fn mark_step(&self, state: u16, mark: Mark) -> Option<u16>
        ensures { result ≡ page_step (parts_in self.now) state (other (mark_of mark)) }
    {
        let count = self.contents.len();
        let at = usize::from(state);
        if at < count {
            self.inner_mark(state, mark)
        } else if at <= count + 2 {
            match mark {
                Mark::Blank | Mark::Misc => Some(state),
                Mark::Text => None,
                Mark::Doctype => {
                    if at == count {
                        Some((count + 1) as u16)
                    } else {
                        None
                    }
                }
            }
        } else {
            None
        }
    }
}
