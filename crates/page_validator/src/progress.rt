//! The open elements of a page, token by token.

ghost use Rattle.std.specs.Prelude.{◌≡◌, ◌==◌, [], codes, length, IfOk};
ghost use Rattle.dtd_model.specs.Table.{holding_of};
ghost use Rattle.dtd_model.specs.TableOf.{table_of};
ghost use Rattle.page_model.specs.Valid as valid;
ghost use Rattle.page_validator.specs.Machine as machine;
ghost use Rattle.page_validator.specs.Views.{Goes, progress_of, root_at, sort_of, stage_of};

use crate::stage::{Open, Sort, Stage};
use content_automata::Contents;
use dtd_model::{Content, DoctypeRule, Dtd};
use std::alloc::Global;
use text_base::{Elem, NoMemory, Stack};

/// How far a page is: the stage, and the open elements with the states of their content models.
#[derive(Debug, Drop)]
pub struct Progress {
    /// How far the page is outside its root.
    pub stage: Stage,
    /// The open elements, the innermost last.
    pub open: Stack<Open>,
}

impl Progress {
    /// The beginning of a page. Takes no memory.
    pub fn new(alloc: Global) -> Progress
        ensures { progress_of result ≡ machine.start }
    {
        Progress {
            stage: Stage::BeforeType,
            open: Stack::new(alloc),
        }
    }

    /// Goes over the document type declaration; false where it may not stand there.
    pub fn doctype(&mut self) -> bool
        ensures { Goes (machine.typed (progress_of self.old).0 (progress_of self.old).1)
            (progress_of self.new) result }
    {
        let is_empty = self.open.last().is_none();
        match self.stage {
            Stage::BeforeType if is_empty => {
                self.stage = Stage::BehindType;
                true
            }
            _ => false,
        }
    }

    /// Goes over a start tag; false where the element may not stand there. After false and for
    /// want of memory nothing more is said of the progress.
    pub fn start(&mut self, dtd: &Dtd, contents: &Contents, element: Elem) -> Result<bool, NoMemory>
        requires { length contents.now.0 ≡ length (table_of dtd.now).elements }
        ensures { IfOk result
            (Goes (machine.opened (table_of dtd.now) contents.now (progress_of self.old) element.0)
            (progress_of self.new)) }
    {
        if usize::from(element.0) >= dtd.elements.len() {
            return Ok(false);
        }
        let inner = Open {
            element,
            state: contents.init(element),
        };
        match self.open.pop() {
            None => self.begin(dtd, inner),
            Some(outer) => match contents.step(outer.state, element) {
                None => Ok(false),
                Some(state) => {
                    self.open.push(Open {
                        element: outer.element,
                        state,
                    })?;
                    self.open.push(inner)?;
                    Ok(true)
                }
            },
        }
    }

    // The start tag of the root.
    fn begin(&mut self, dtd: &Dtd, root: Open) -> Result<bool, NoMemory>
        requires { self.old.«open» ≡ [] }
        ensures { IfOk result
            (Goes (root_at (table_of dtd.now) (stage_of self.old.stage) root.element.0 root.state)
            (progress_of self.new)) }
    {
        if !(may_begin(dtd.doctype, self.stage) && is_html(dtd, root.element)) {
            return Ok(false);
        }
        self.stage = Stage::RootBegun;
        self.open.push(root)?;
        Ok(true)
    }

    /// Goes over an end tag; false where it does not close the innermost element.
    pub fn end(&mut self, contents: &Contents, element: Elem) -> bool
        ensures { Goes (machine.popped contents.now (progress_of self.old).0
            (progress_of self.old).1 element.0) (progress_of self.new) result }
    {
        match self.open.pop() {
            None => false,
            Some(open) => open.element.0 == element.0 && contents.accepts(open.state),
        }
    }

    /// Whether this may stand here.
    pub fn allows(&self, dtd: &Dtd, sort: Sort) -> bool
        ensures { result ≡ machine.may_stand (table_of dtd.now) (progress_of self.now).1
            (sort_of sort) }
    {
        match self.open.last() {
            None => is_between(sort),
            Some(open) => may_hold(dtd, open.element, sort),
        }
    }

    /// Whether a page may end here.
    pub fn is_done(&self) -> bool
        ensures { result ≡ machine.is_done (progress_of self.now).0 (progress_of self.now).1 }
    {
        let is_empty = self.open.last().is_none();
        match self.stage {
            Stage::RootBegun => is_empty,
            Stage::BeforeType | Stage::BehindType => false,
        }
    }
}

// Whether the root may begin there.
fn may_begin(rule: DoctypeRule, stage: Stage) -> bool
    ensures { result ≡ machine.may_begin rule (stage_of stage) }
{
    match (rule, stage) {
        (DoctypeRule::Free, Stage::BeforeType) => true,
        (DoctypeRule::Strict, Stage::BeforeType) => false,
        (DoctypeRule::Free | DoctypeRule::Strict, Stage::BehindType) => true,
        (DoctypeRule::Free | DoctypeRule::Strict, Stage::RootBegun) => false,
    }
}

// Whether the element is the first that is declared as `html`.
fn is_html(dtd: &Dtd, element: Elem) -> bool
    ensures { result ≡ (element.0 == valid.place_of (table_of dtd.now).elements (codes "html")) }
{
    usize::from(element.0) == html_place(dtd)
}

fn html_place(dtd: &Dtd) -> usize
    ensures { result ≡ valid.place_of (table_of dtd.now).elements (codes "html") }
{
    for (i, rule) in dtd.elements.as_slice().iter().enumerate() {
        if rule.name.as_slice() == b"html".as_slice() {
            return i;
        }
    }
    dtd.elements.len()
}

// White space, comments and instructions.
fn is_between(sort: Sort) -> bool
    ensures { result ≡ valid.is_between (sort_of sort) }
{
    match sort {
        Sort::Blank | Sort::Remark => true,
        Sort::Text => false,
    }
}

// Whether this may stand in the element.
fn may_hold(dtd: &Dtd, element: Elem, sort: Sort) -> bool
    ensures { result ≡ valid.may_hold (machine.holding_at (table_of dtd.now) element.0)
        (sort_of sort) }
{
    match dtd.elements.as_slice().get(usize::from(element.0)) {
        None => false,
        Some(rule) => content_holds(&rule.content, sort),
    }
}

fn content_holds(content: &Content, sort: Sort) -> bool
    ensures { result ≡ valid.may_hold (holding_of content.now) (sort_of sort) }
{
    match content {
        Content::Empty => false,
        Content::Any | Content::Mixed(_) => true,
        Content::Children(_) => is_between(sort),
    }
}
