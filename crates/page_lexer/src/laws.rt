//! The laws. Each function does nothing, and stands for the law that its contract states.

ghost use Rattle.merged_reader.specs.Laws.{IsMergedReaderOf};
ghost use Rattle.page_lexer.specs.Lexing.{lexer_table, HasOneStateForEachFront};

use crate::lexer::PageLexer;
use numbered_sets::count;

/// Equal fronts of pages, bad ones too, have one state.
pub fn fronts_have_one_state(lexer: &PageLexer<'_>)
    ensures { HasOneStateForEachFront lexer.now }
{
    reader_fronts::laws::fronts_lead_alike(lexer.numbered.reader.indexed.dtd);
    let _states = count(&lexer.numbered.states);
}

/// What steps put out over a page from the first state on, and then the end, are its tokens.
pub fn steps_read_pages(lexer: &PageLexer<'_>)
    ensures { IsMergedReaderOf (lexer_table lexer.now) }
{
    merged_reader::laws::reads_pages(lexer.numbered.reader.indexed.dtd);
}
