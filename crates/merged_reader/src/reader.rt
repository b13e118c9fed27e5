//! The reader.

ghost use Rattle.dtd_model.specs.TableOf.{table_of};
ghost use Rattle.page_reader.specs.States.{first_state, tokens_at, tokens_behind};
ghost use Rattle.merged_reader.specs.States.{merged_next};

use crate::merging::merged;
use byte_readers::{ByteReader, Emit, ReaderStep};
use dtd_index::IndexedDtd;
use page_reader::{PageReader, ReaderState};
use std::alloc::Global;
use text_base::NoMemory;

/// The reader of the pages of a document type definition that keeps of an open character only what
/// makes a difference. Over each page it puts out exactly the tokens of the page.
#[derive(Clone, Copy, Debug, Drop)]
pub struct MergedReader<'a> {
    /// The definition.
    pub indexed: &'a IndexedDtd<'a>,
}

impl<'a> ByteReader for MergedReader<'a> {
    type State = ReaderState;

    ghost first = { λ r. first_state };

    ghost next = { λ r s b. merged_next (table_of r.indexed.now.dtd.now) s b };

    ghost puts = { λ r s b. tokens_at (table_of r.indexed.now.dtd.now) s b };

    ghost lasts = { λ r s. tokens_behind (table_of r.indexed.now.dtd.now) s };

    fn copy(&self, alloc: Global, state: &ReaderState) -> Result<ReaderState, NoMemory> {
        state.copy(alloc)
    }

    fn start(&self, alloc: Global) -> Result<ReaderState, NoMemory> {
        let pages = PageReader {
            indexed: self.indexed,
        };
        pages.start(alloc)
    }

    fn step(
        &self,
        alloc: Global,
        state: &ReaderState,
        byte: u8,
    ) -> Result<ReaderStep<ReaderState>, NoMemory> {
        let pages = PageReader {
            indexed: self.indexed,
        };
        let step = pages.step(alloc, state, byte)?;
        let to = merged(alloc, step.to)?;
        Ok(ReaderStep {
            to,
            emit: step.emit,
        })
    }

    fn last(&self, state: &ReaderState) -> Emit {
        let pages = PageReader {
            indexed: self.indexed,
        };
        pages.last(state)
    }
}
