//! The lexer.

ghost use Rattle.std.specs.Prelude.{◌≡◌, ◌<◌, ◌++◌, ◌∷◌, [], ℕ, List, Ok, IfOk, length};
ghost use Rattle.numbered_sets.specs.Numbers.{Keeps, AddsOnly};
ghost use Rattle.page_lexer.specs.Numbered.{IsKnown, KeepsKnown};
ghost use Rattle.page_lexer.specs.declared.rows.NumberedStep as steps;
ghost use Rattle.byte_readers.specs.Reading.{emitted};
ghost use Rattle.dtd_model.specs.TableOf.{table_of};
ghost use Rattle.page_model.specs.PageTokens.{PageTokens};
ghost use Rattle.page_reader.specs.States.{first_state, tokens_at, tokens_behind};
ghost use Rattle.page_lexer.specs.Lexing.{lexer_table, lexer_states, lexer_rows, lexer_state_behind, IsBehind};

use crate::{NumberedReader, NumberedStep, StateNumber};
use byte_readers::Emit;
use dtd_index::IndexedDtd;
use merged_reader::MergedReader;
use std::alloc::Global;
use text_base::{NoMemory, PageToken};

/// A lexer of the pages of a document type definition. Its states are numbers of 64 bits: `Copy`,
/// compared and hashed without memory. Each step is asked of the reader once.
#[derive(Drop)]
pub struct PageLexer<'a> {
    /// The reader of pages, by numbers of its states.
    pub numbered: NumberedReader<MergedReader<'a>>,
}

impl<'a> PageLexer<'a> {
    /// The lexer of the pages of a definition, which has met the state before a page alone.
    pub fn new(alloc: Global, indexed: &'a IndexedDtd<'a>) -> Result<PageLexer<'a>, NoMemory>
        ensures table { IfOk result (λ lexer. lexer_table lexer ≡ table_of indexed.now.dtd.now) }
        ensures states { IfOk result (λ lexer. lexer_states lexer ≡ first_state ∷ []) }
        ensures rows { IfOk result (λ lexer. lexer_rows lexer ≡ []) }
    {
        let numbered = NumberedReader::new(alloc, MergedReader { indexed })?;
        Ok(PageLexer { numbered })
    }

    /// The state before a page.
    pub fn first(&self) -> StateNumber
        ensures met { result.0 < length (lexer_states self.now) }
        ensures behind { IsBehind self.now result.0 [] }
    {
        self.numbered.first()
    }

    /// Where a byte leads from a state that was met, and the tokens that are put out at it. A step
    /// that was asked before is given back, and nothing changes; of another one the state behind the
    /// byte is met at most, and the step is known then. States that were met keep their numbers, and
    /// what is known stays known, also for want of memory.
    pub fn step(
        &mut self,
        alloc: Global,
        state: StateNumber,
        byte: u8,
    ) -> Result<NumberedStep, NoMemory>
        requires { state.0 < length (lexer_states self.old) }
        ensures table { lexer_table self.new ≡ lexer_table self.old }
        ensures keeps { Keeps (lexer_states self.old) (lexer_states self.new) }
        ensures adds { (bytes : List ℕ) → IsBehind self.old state.0 bytes
            → AddsOnly (lexer_states self.old) (lexer_states self.new)
            (lexer_state_behind (lexer_table self.old) (bytes ++ byte ∷ [])) }
        ensures asked { (step : steps.NumberedStep) → IsKnown (lexer_rows self.old) state.0 byte step
            → (result ≡ Ok step) × (self.new ≡ self.old) }
        ensures noted { IfOk result (IsKnown (lexer_rows self.new) state.0 byte) }
        ensures known { KeepsKnown (lexer_rows self.old) (lexer_rows self.new) }
        ensures met { IfOk result (λ step. step.to.0 < length (lexer_states self.new)) }
        ensures to { (bytes : List ℕ) → IsBehind self.old state.0 bytes
            → IfOk result (λ step. IsBehind self.new step.to.0 (bytes ++ byte ∷ [])) }
        ensures emit { (bytes : List ℕ) → IsBehind self.old state.0 bytes
            → IfOk result
            (λ step. emitted step.emit
            ≡ tokens_at (lexer_table self.old) (lexer_state_behind (lexer_table self.old) bytes)
            byte) }
    {
        self.numbered.step(alloc, state, byte)
    }

    /// The tokens that are put out where a page ends in a state that was met.
    pub fn end(&self, state: StateNumber) -> Emit
        requires { state.0 < length (lexer_states self.now) }
        ensures { (bytes : List ℕ) → IsBehind self.now state.0 bytes
            → emitted result
            ≡ tokens_behind (lexer_table self.now) (lexer_state_behind (lexer_table self.now) bytes) }
    {
        self.numbered.end(state)
    }

    /// The tokens of a page. States that were met keep their numbers, and what is known stays known,
    /// also for want of memory.
    pub fn tokens(&mut self, alloc: Global, page: &[u8]) -> Result<Vec<PageToken>, NoMemory>
        ensures table { lexer_table self.new ≡ lexer_table self.old }
        ensures keeps { Keeps (lexer_states self.old) (lexer_states self.new) }
        ensures known { KeepsKnown (lexer_rows self.old) (lexer_rows self.new) }
        ensures tokens { IfOk result
            (λ tokens. PageTokens (lexer_table self.old) page.now tokens.items) }
    {
        merged_reader::laws::reads_pages(self.numbered.reader.indexed.dtd);
        self.numbered.tokens(alloc, page)
    }
}
