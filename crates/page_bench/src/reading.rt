//! Ways to count the tokens of a page: by steps of the reader, each from the state itself, and by the
//! lexer, whose states are numbers, in which each pair of a state and a byte is asked once.

use byte_readers::{ByteReader, Emit};
use merged_reader::MergedReader;
use page_lexer::PageLexer;
use std::alloc::Global;
use text_base::NoMemory;

fn count_of(emit: Emit) -> usize {
    match emit {
        Emit::Nothing => 0,
        Emit::One(_) => 1,
        Emit::Two(_, _) => 2,
    }
}

/// How many tokens the reader puts out over a page, by a step of its own at each byte.
pub fn tokens_of(alloc: Global, reader: MergedReader<'_>, page: &[u8]) -> Result<usize, NoMemory> {
    let mut state = reader.start(alloc)?;
    let mut count = 0_usize;
    for byte in page {
        let step = reader.step(alloc, &state, *byte)?;
        count = count.saturating_add(count_of(step.emit));
        state = step.to;
    }
    Ok(count.saturating_add(count_of(reader.last(&state))))
}

/// How many pairs of a state and a byte the lexer has asked its reader for.
pub fn pairs_of(lexer: &PageLexer<'_>) -> usize {
    let mut pairs = 0_usize;
    for row in &lexer.numbered.rows {
        for byte in 0..=255_u8 {
            if row.steps[usize::from(byte)].is_some() {
                pairs = pairs.saturating_add(1);
            }
        }
    }
    pairs
}
