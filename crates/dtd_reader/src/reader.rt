//! The reading of a text, step by step.

ghost use Rattle.std.specs.Prelude.{◌≡◌, ◌<◌, ◌≤◌, ◌+◌, ◌^◌, ℕ, List, length, drop, take, IfOk, false};
ghost use Rattle.io_edge.specs.Told.{Content, Stays};
ghost use Rattle.dtd_texts.specs.Reading.{is_among, move, opens};
ghost use Rattle.dtd_entities.specs.Positions.{state_of};
ghost use Rattle.dtd_reader.specs.SoFar.{first, names, SoFar};
ghost use Rattle.dtd_reader.specs.Source.{SourceCall, source_call, IsCalm, Counted};
ghost use Rattle.dtd_texts.specs.Spells.{seen_from};
ghost use Rattle.dtd_reader.specs.Views.{position_of, frames_of, inner_of, Told, entered, IsFound, IsOutside, FoundCounts, OutcomeCounts, IsNearer};

use crate::frames::{Frames, Rest};
use crate::limits::REPLACED_LIMIT;
use crate::loading::load;
use crate::outcome::{Found, Inner, Loaded, Outcome};
use dtd_declarations::{behind, front};
use dtd_entities::{FileName, Move, Reading, Source, source_of};
use io_edge::{Files, is_outside, name_beside};
use std::alloc::Global;
use std::mem;
use text_base::{Bytes, NoMemory};

/// Where the names of a definition are looked for: in which root, and beside which file.
#[derive(Clone, Copy, Debug)]
pub struct Origin<'a> {
    pub root: &'a str,
    pub name: &'a str,
}

// The text of a file that is meant under this name in the file of the definition. What lies outside
// of the root is not asked for.
fn outside<F: Files>(
    alloc: Global,
    files: &mut F,
    origin: Origin<'_>,
    meant: &FileName,
) -> Result<Found, NoMemory>
    ensures found { (content : Content) → Stays (F.content files.new) content →
        IfOk result (IsOutside origin.entry.root.now origin.entry.name.now content meant.now) }
    ensures counted { Counted FoundCounts
        (source_call (F.content files.new) (F.faults files.old) (F.faults files.new)
        (F.misses files.old) (F.misses files.new)) result }
    ensures stays { Stays (F.content files.old) (F.content files.new) }
{
    let path = name_beside(alloc, origin.name, meant.as_str())?;
    let leads_out = is_outside(alloc, origin.root, origin.name, meant.as_str())?;
    if leads_out {
        let path = Bytes::from_slice(alloc, path.as_bytes())?;
        return Ok(Found::Outside(path));
    }
    match load(alloc, files, path.as_str())? {
        Loaded::NotRead(path, fault) => Ok(Found::NotRead(path, fault)),
        Loaded::Text(text, over) => {
            let file = meant.copy()?;
            Ok(Found::Text(Inner { text, over, file }))
        }
    }
}

/// The reading, with what is left of the text, and the entities that are open.
#[derive(Debug, Drop)]
pub struct Reader {
    pub reading: Reading,
    pub text: Bytes,
    pub at: usize,
    pub frames: Frames,
}

impl Reader {
    /// Before the text.
    pub fn new(alloc: Global, text: Bytes) -> Result<Reader, NoMemory>
        ensures { IfOk result (λ r. position_of r ≡ first text) }
    {
        let reading = Reading::new(alloc)?;
        Ok(Reader {
            reading,
            text,
            at: 0,
            frames: Frames::new(alloc),
        })
    }

    // The end of the text of an entity, or of the whole.
    fn close(&mut self) -> Result<Outcome, NoMemory>
        requires small { (self.old.reading.length ≤ REPLACED_LIMIT)
            × (self.old.reading.references ≤ REPLACED_LIMIT) }
        requires at { length self.old.text ≤ self.old.at }
        ensures nearer { IfOk result (λ o. IsNearer o (position_of self.old) (position_of self.new)) }
        ensures counted { (call : SourceCall) → IsCalm call → Counted OutcomeCounts call result }
        ensures told { (root name : List ℕ) (content : Content) (file : List ℕ) →
            SoFar (seen_from root name content) file (position_of self.old) →
            IfOk result
            (λ o. Told root name content file o (position_of self.old) (position_of self.new)) }
    {
        match self.frames.close() {
            None => Ok(Outcome::Ends),
            Some(rest) => {
                self.reading.leave(rest.file)?;
                self.text = rest.text;
                self.at = rest.at;
                Ok(Outcome::Goes)
            }
        }
    }

    // Into the text of an entity, whose reference has so many bytes.
    fn enter(&mut self, name: Bytes, inner: Inner, n: usize) -> Result<(), NoMemory>
        requires small { (self.old.reading.length < 2 ^ 32)
            × (self.old.reading.references < 2 ^ 32) }
        requires few { (self.old.reading.passed < 2 ^ 32) × (inner.over < 2 ^ 32) }
        requires fits { self.old.at + n ≤ length self.old.text }
        requires shut { is_among (names (frames_of self.old.frames)) name ≡ false }
        ensures { IfOk result (λ done. position_of self.new
            ≡ entered (position_of self.old) name (inner_of inner) n) }
    {
        let Inner { text, over, file } = inner;
        let around = self.reading.file.copy()?;
        self.reading.enter(over, file)?;
        let text = mem::replace(&mut self.text, text);
        let at = self.at + n;
        self.at = 0;
        let rest = Rest {
            text,
            at,
            file: around,
        };
        self.frames.open(name, rest)?;
        Ok(())
    }

    // The text of an entity that is declared so far and is not open.
    fn find<F: Files>(
        &self,
        alloc: Global,
        files: &mut F,
        origin: Origin<'_>,
        name: &Bytes,
    ) -> Result<Found, NoMemory>
        ensures found { (content : Content) → Stays (F.content files.new) content →
            IfOk result (IsFound origin.entry.root.now origin.entry.name.now content
            (state_of self.now.reading) (frames_of self.now.frames) name.now) }
        ensures counted { Counted FoundCounts
            (source_call (F.content files.new) (F.faults files.old) (F.faults files.new)
            (F.misses files.old) (F.misses files.new)) result }
        ensures stays { Stays (F.content files.old) (F.content files.new) }
    {
        if self.frames.is_open(name) {
            return Ok(Found::Nowhere);
        }
        match source_of(&self.reading.parameters, name) {
            None => Ok(Found::Nowhere),
            Some(Source::Internal(text)) => {
                let text = text.copy(alloc)?;
                let file = self.reading.file.copy()?;
                Ok(Found::Text(Inner {
                    text,
                    over: 0,
                    file,
                }))
            }
            Some(Source::External(meant)) => outside(alloc, files, origin, meant),
        }
    }

    // A reference with a name of so many bytes.
    fn open_entity<F: Files>(
        &mut self,
        alloc: Global,
        files: &mut F,
        origin: Origin<'_>,
        n: usize,
    ) -> Result<Outcome, NoMemory>
        requires small { (self.old.reading.length ≤ REPLACED_LIMIT)
            × (self.old.reading.references ≤ REPLACED_LIMIT) }
        requires few { self.old.reading.passed ≤ REPLACED_LIMIT }
        requires some { self.old.at + (2 + n) ≤ length self.old.text }
        requires opens { move (state_of self.old.reading) (drop self.old.at self.old.text)
            ≡ opens (take n (drop 1 (drop self.old.at self.old.text))) (2 + n) }
        ensures told { (content : Content) (file : List ℕ) → Stays (F.content files.new) content →
            SoFar (seen_from origin.entry.root.now origin.entry.name.now content) file (position_of self.old) →
            IfOk result (λ o. Told origin.entry.root.now origin.entry.name.now content file o
            (position_of self.old) (position_of self.new)) }
        ensures nearer { IfOk result (λ o. IsNearer o (position_of self.old) (position_of self.new)) }
        ensures counted { Counted OutcomeCounts
            (source_call (F.content files.new) (F.faults files.old) (F.faults files.new)
            (F.misses files.old) (F.misses files.new)) result }
        ensures stays { Stays (F.content files.old) (F.content files.new) }
    {
        let name = Bytes::from_slice(
            alloc,
            front(behind(behind(self.text.as_slice(), self.at), 1), n),
        )?;
        match self.find(alloc, files, origin, &name)? {
            Found::Nowhere => Ok(Outcome::Misses(name)),
            Found::NotRead(path, fault) => Ok(Outcome::Unread(path, fault)),
            Found::Outside(path) => Ok(Outcome::LeadsOut(path)),
            Found::Text(inner) => {
                self.enter(name, inner, 2 + n)?;
                Ok(Outcome::Goes)
            }
        }
    }

    // What stands at the head of the text.
    fn take<F: Files>(
        &mut self,
        alloc: Global,
        files: &mut F,
        origin: Origin<'_>,
    ) -> Result<Outcome, NoMemory>
        requires small { (self.old.reading.length ≤ REPLACED_LIMIT)
            × (self.old.reading.references ≤ REPLACED_LIMIT) }
        requires few { self.old.reading.passed ≤ REPLACED_LIMIT }
        requires at { self.old.at < length self.old.text }
        ensures told { (content : Content) (file : List ℕ) → Stays (F.content files.new) content →
            SoFar (seen_from origin.entry.root.now origin.entry.name.now content) file (position_of self.old) →
            IfOk result (λ o. Told origin.entry.root.now origin.entry.name.now content file o
            (position_of self.old) (position_of self.new)) }
        ensures nearer { IfOk result (λ o. IsNearer o (position_of self.old) (position_of self.new)) }
        ensures counted { Counted OutcomeCounts
            (source_call (F.content files.new) (F.faults files.old) (F.faults files.new)
            (F.misses files.old) (F.misses files.new)) result }
        ensures stays { Stays (F.content files.old) (F.content files.new) }
    {
        match self
            .reading
            .step(alloc, behind(self.text.as_slice(), self.at))?
        {
            Move::On(n) => {
                self.at += n;
                Ok(Outcome::Goes)
            }
            Move::Opens(n) => self.open_entity(alloc, files, origin, n),
            Move::Omits => Ok(Outcome::Omits),
            Move::Stuck => Ok(Outcome::Breaks),
        }
    }

    /// One step of the reading.
    pub fn advance<F: Files>(
        &mut self,
        alloc: Global,
        files: &mut F,
        origin: Origin<'_>,
    ) -> Result<Outcome, NoMemory>
        requires small { (self.old.reading.length ≤ REPLACED_LIMIT)
            × (self.old.reading.references ≤ REPLACED_LIMIT) }
        requires few { self.old.reading.passed ≤ REPLACED_LIMIT }
        ensures told { (content : Content) (file : List ℕ) → Stays (F.content files.new) content →
            SoFar (seen_from origin.entry.root.now origin.entry.name.now content) file (position_of self.old) →
            IfOk result (λ o. Told origin.entry.root.now origin.entry.name.now content file o
            (position_of self.old) (position_of self.new)) }
        ensures nearer { IfOk result (λ o. IsNearer o (position_of self.old) (position_of self.new)) }
        ensures counted { Counted OutcomeCounts
            (source_call (F.content files.new) (F.faults files.old) (F.faults files.new)
            (F.misses files.old) (F.misses files.new)) result }
        ensures stays { Stays (F.content files.old) (F.content files.new) }
    {
        if self.at < self.text.len() {
            self.take(alloc, files, origin)
        } else {
            self.close()
        }
    }
}
