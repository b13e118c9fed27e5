//! The reader by numbers.

ghost use Rattle.std.specs.Prelude.{◌≡◌, ◌<◌, ◌++◌, ◌∷◌, [], Ok, IfOk, OnOk, Some, slice_get, length};
ghost use Rattle.byte_readers.specs.Reading.{emitted, tokens_over};
ghost use Rattle.numbered_sets.specs.Numbers.{Keeps, AddsOnly};
ghost use Rattle.page_lexer.specs.declared.rows.NumberedStep as steps;
ghost use Rattle.page_lexer.specs.Numbered.{IsNumbered, IsStep, IsKnown, IsNew, KeepsKnown};

use crate::rows::{NumberedStep, Row, StateNumber, known_step, note_step};
use byte_readers::{ByteReader, Emit, ReaderStep};
use indexmap::IndexSet;
use numbered_sets::number;
use std::alloc::Global;
use text_base::{NoMemory, PageToken};

/// A reader whose states are numbers. A step that was asked before is looked up in a table, and
/// takes no memory. For want of memory the reader stays as it was, but that more may be known.
#[derive(Drop)]
pub struct NumberedReader<R: ByteReader + Drop> {
    pub reader: R,
    /// The states that were met, each at its number.
    pub states: IndexSet<R::State>,
    /// The steps that are known.
    pub rows: Vec<Row>,
    ghost numbered: { IsNumbered (R.first reader) (R.next reader) (R.puts reader) states.keys
        rows.items },
}

impl<R: ByteReader + Drop> NumberedReader<R> {
    /// The states and steps of a reader, of which only the state before a text is met.
    pub fn new(alloc: Global, reader: R) -> Result<NumberedReader<R>, NoMemory>
        ensures reader { IfOk result (λ n. n.reader ≡ reader) }
        ensures states { IfOk result (λ n. n.states.keys ≡ R.first reader ∷ []) }
        ensures rows { IfOk result (λ n. n.rows.items ≡ []) }
    {
        let mut states = IndexSet::new(alloc);
        let (_, _) = number(&mut states, reader.start(alloc)?)?;
        Ok(NumberedReader {
            reader,
            states,
            rows: Vec::new(alloc),
        })
    }

    /// The state before a text.
    pub fn first(&self) -> StateNumber
        ensures { slice_get self.now.states.keys result.0 ≡ Some (R.first self.now.reader) }
    {
        StateNumber(0)
    }

    /// Asks the reader where a byte leads.
    fn ask(&mut self, alloc: Global, state: StateNumber, byte: u8) -> Result<NumberedStep, NoMemory>
        requires new { IsNew self.old.rows.items state.0 byte }
        requires met { state.0 < length self.old.states.keys }
        ensures reader { self.new.reader ≡ self.old.reader }
        ensures keeps { Keeps self.old.states.keys self.new.states.keys }
        ensures adds { (s : R.State) → slice_get self.old.states.keys state.0 ≡ Some s
            → AddsOnly self.old.states.keys self.new.states.keys (R.next self.old.reader s byte) }
        ensures known { KeepsKnown self.old.rows.items self.new.rows.items }
        ensures noted { IfOk result (IsKnown self.new.rows.items state.0 byte) }
        ensures step { (s : R.State) → slice_get self.old.states.keys state.0 ≡ Some s
            → IfOk result
            (IsStep (R.next self.old.reader) (R.puts self.old.reader) self.new.states.keys s byte) }
    {
        let Some(from) = self.states.get_index(state.0) else {
            unreachable!()
        };
        let ReaderStep { to, emit } = self.reader.step(alloc, from, byte)?;
        let (to, _) = number(&mut self.states, to)?;
        let step = NumberedStep {
            to: StateNumber(to),
            emit,
        };
        note_step(&mut self.rows, state, byte, step)?;
        Ok(step)
    }

    /// Where a byte leads from a state that was met, and what is put out at it. States that were
    /// met keep their numbers.
    pub fn step(
        &mut self,
        alloc: Global,
        state: StateNumber,
        byte: u8,
    ) -> Result<NumberedStep, NoMemory>
        requires { state.0 < length self.old.states.keys }
        ensures reader { self.new.reader ≡ self.old.reader }
        ensures keeps { Keeps self.old.states.keys self.new.states.keys }
        ensures asked { (step : steps.NumberedStep) → IsKnown self.old.rows.items state.0 byte step
            → (result ≡ Ok step) × (self.new ≡ self.old) }
        ensures adds { (s : R.State) → slice_get self.old.states.keys state.0 ≡ Some s
            → AddsOnly self.old.states.keys self.new.states.keys (R.next self.old.reader s byte) }
        ensures known { KeepsKnown self.old.rows.items self.new.rows.items }
        ensures noted { IfOk result (IsKnown self.new.rows.items state.0 byte) }
        ensures step { (s : R.State) → slice_get self.old.states.keys state.0 ≡ Some s
            → IfOk result
            (IsStep (R.next self.old.reader) (R.puts self.old.reader) self.new.states.keys s byte) }
    {
        match known_step(self.rows.as_slice(), state, byte) {
            Some(step) => Ok(step),
            None => self.ask(alloc, state, byte),
        }
    }

    /// What is put out where the text ends in a state that was met.
    pub fn end(&self, state: StateNumber) -> Emit
        requires { state.0 < length self.now.states.keys }
        ensures { (s : R.State) → slice_get self.now.states.keys state.0 ≡ Some s
            → emitted result ≡ R.lasts self.now.reader s }
    {
        let Some(state) = self.states.get_index(state.0) else {
            unreachable!()
        };
        self.reader.last(state)
    }

    /// The tokens that the reader puts out over a text.
    pub fn tokens(&mut self, alloc: Global, text: &[u8]) -> Result<Vec<PageToken>, NoMemory>
        ensures reader { self.new.reader ≡ self.old.reader }
        ensures keeps { Keeps self.old.states.keys self.new.states.keys }
        ensures known { KeepsKnown self.old.rows.items self.new.rows.items }
        ensures tokens { IfOk result
            (λ tokens. tokens.items
            ≡ tokens_over (R.next self.old.reader) (R.puts self.old.reader) (R.lasts self.old.reader)
            (R.first self.old.reader) text.now) }
    {
        let mut tokens = Vec::new(alloc);
        let mut state = self.first();
        for byte in text {
            let step = self.step(alloc, state, *byte)?;
            push_emit(&mut tokens, step.emit)?;
            state = step.to;
        }
        push_emit(&mut tokens, self.end(state))?;
        Ok(tokens)
    }
}

/// Puts what is put out at once behind tokens.
fn push_emit(tokens: &mut Vec<PageToken>, emit: Emit) -> Result<(), NoMemory>
    ensures { OnOk result (tokens.new.items ≡ tokens.old.items ++ emitted emit) }
{
    match emit {
        Emit::Nothing => Ok(()),
        Emit::One(token) => {
            tokens.push(token)?;
            Ok(())
        }
        Emit::Two(first, second) => {
            tokens.push(first)?;
            tokens.push(second)?;
            Ok(())
        }
    }
}
