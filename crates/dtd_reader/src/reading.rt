//! The reading of a whole text.

ghost use Rattle.std.specs.Prelude.{◌≡◌, ◌≢◌, ◌<◌, ◌≤◌, ◌+◌, ◌⊎◌, List, ℕ, [], true, false};
ghost use Rattle.io_edge.specs.Told.{Stays};
ghost use Rattle.dtd_texts.specs.Places as places;
ghost use Rattle.dtd_texts.specs.Reading.{Reads, start};
ghost use Rattle.dtd_texts.specs.Causes.{Breaks, Comes};
ghost use Rattle.dtd_texts.specs.Spells.{seen_from};
ghost use Rattle.dtd_entities.specs.Positions.{state_of};
ghost use Rattle.dtd_reader.specs.Source.{SourceCall, source_call, IsCalm, IsUnread};
ghost use Rattle.dtd_reader.specs.Causes.{AsksFor, IsWithinLimits, IsReadCause, IsTextCause};
ghost use Rattle.dtd_reader.specs.Answers.{IsAnswer, IsTextAnswer};

use crate::limits::REPLACED_LIMIT;
use crate::loading::load;
use crate::outcome::{Loaded, Outcome};
use crate::reader::{Origin, Reader};
use crate::refusal::DtdRefusal;
use dtd_entities::{Mode, Reading};
use dtd_tables::first_refused;
use io_edge::{FileFault, Files};
use std::alloc::Global;
use text_base::Bytes;

// The refusal of a file that was not read.
fn unread(name: Bytes, fault: FileFault) -> DtdRefusal
    ensures first { (call : SourceCall) (root : List ℕ) → IsUnread call name fault →
        IsReadCause call root name result }
    ensures asked { (call : SourceCall) (root first file : List ℕ) →
        AsksFor call.content root first file name → IsUnread call name fault →
        IsTextCause call root first file result }
{
    match fault {
        FileFault::Missing => DtdRefusal::Missing { name },
        FileFault::Failed => DtdRefusal::ReadFault { name },
        FileFault::TooLong { len } => DtdRefusal::TooLong { name, len },
        FileFault::Memory => DtdRefusal::Memory,
    }
}

// Whether the text may end here.
fn is_between(reading: &Reading) -> bool
    ensures between { result ≡ true → (state_of reading.now).place ≡ places.between }
    ensures within { result ≡ false → (state_of reading.now).place ≢ places.between }
{
    matches!(reading.mode, Mode::Between)
}

// Whether the text so far is within the limits.
fn is_within_limits(reading: &Reading) -> bool
    ensures within { result ≡ true → (reading.now.length + reading.now.passed ≤ REPLACED_LIMIT)
        × (reading.now.references ≤ REPLACED_LIMIT) }
    ensures over { result ≡ false → (REPLACED_LIMIT < reading.now.length + reading.now.passed)
        ⊎ (REPLACED_LIMIT < reading.now.references) }
{
    if reading.length > REPLACED_LIMIT {
        return false;
    }
    if reading.passed > REPLACED_LIMIT - reading.length {
        return false;
    }
    reading.references <= REPLACED_LIMIT
}

// How many bytes or references there are, where there are too many.
fn most(reading: &Reading) -> u64
    ensures { (REPLACED_LIMIT < reading.now.length + reading.now.passed)
        ⊎ (REPLACED_LIMIT < reading.now.references) →
        (REPLACED_LIMIT < result)
        × ((result ≤ reading.now.length + reading.now.passed) ⊎ (result ≤ reading.now.references)) }
{
    let bytes = reading.length.saturating_add(reading.passed);
    if bytes < reading.references {
        reading.references
    } else {
        bytes
    }
}

// The first fault of a text that breaks behind these declarations.
fn first_fault(alloc: Global, reading: &Reading) -> DtdRefusal
    ensures { (call : SourceCall) (root name file : List ℕ) →
        Comes (seen_from root name call.content) file (state_of reading.now) →
        Breaks (seen_from root name call.content) file (state_of reading.now).begun → IsCalm call →
        IsTextCause call root name file result }
{
    match first_refused(alloc, reading.written.as_slice()) {
        Ok(first) => DtdRefusal::NotDtd {
            at: first.unwrap_or(reading.begun),
        },
        Err(_) => DtdRefusal::Memory,
    }
}

// The end of the text, which is to stand between declarations.
fn ended(alloc: Global, reading: Reading) -> Result<Reading, DtdRefusal>
    ensures { (call : SourceCall) (root name file : List ℕ) →
        Reads (seen_from root name call.content) [] start file (state_of reading) →
        IsWithinLimits (state_of reading) → IsCalm call →
        IsTextAnswer call root name file result }
{
    if is_between(&reading) {
        Ok(reading)
    } else {
        Err(first_fault(alloc, &reading))
    }
}

// Reads a text to its end.
fn read_from<F: Files>(
    alloc: Global,
    files: &mut F,
    origin: Origin<'_>,
    text: Bytes,
) -> Result<Reading, DtdRefusal>
    ensures answer { IsTextAnswer
        (source_call (F.content files.new) (F.faults files.old) (F.faults files.new)
        (F.misses files.old) (F.misses files.new)) origin.entry.root.now origin.entry.name.now
        text result }
    ensures stays { Stays (F.content files.old) (F.content files.new) }
{
    let mut reader = Reader::new(alloc, text)?;
    'steps: while is_within_limits(&reader.reading) {
        match reader.advance(alloc, files, origin)? {
            Outcome::Goes => continue 'steps,
            Outcome::Ends => return ended(alloc, reader.reading),
            Outcome::Breaks => return Err(first_fault(alloc, &reader.reading)),
            Outcome::Omits => {
                return Err(DtdRefusal::LeftOut {
                    at: reader.reading.begun,
                });
            }
            Outcome::Misses(name) => return Err(DtdRefusal::Entity { name }),
            Outcome::Unread(path, fault) => return Err(unread(path, fault)),
            Outcome::LeadsOut(name) => return Err(DtdRefusal::Outside { name }),
        }
    }
    Err(DtdRefusal::Limit {
        count: most(&reader.reading),
    })
}

/// Reads the text of a document type definition from the file of this name, with its parameter
/// entities replaced (XML 1.0, 2.8 and 4.4), in time linear in the replaced text. The name of an
/// external entity is looked for beside the file in which its declaration ends (4.2.2).
///
/// # Errors
///
/// `Missing`, `ReadFault` and `TooLong` for a file that was not read, `Outside` for one outside of
/// the root, which is not asked for, `NotDtd` with the first place of a fault where the text breaks,
/// `Entity` and `LeftOut` for what the text breaks, `Limit` where the replaced text has, with the
/// text declarations of entities, over 4,194,304 bytes or as many references were replaced, and
/// `Memory`.
pub fn read_text<F: Files>(
    alloc: Global,
    files: &mut F,
    root: &str,
    name: &str,
) -> Result<Reading, DtdRefusal>
    ensures answer { IsAnswer
        (source_call (F.content files.new) (F.faults files.old) (F.faults files.new)
        (F.misses files.old) (F.misses files.new)) root.now name.now result }
    ensures stays { Stays (F.content files.old) (F.content files.new) }
{
    match load(alloc, files, name)? {
        Loaded::Text(text, _) => read_from(alloc, files, Origin { root, name }, text),
        Loaded::NotRead(path, fault) => Err(unread(path, fault)),
    }
}
