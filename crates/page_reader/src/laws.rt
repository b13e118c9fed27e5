//! The law. The function does nothing, and stands for the law that its contract states.

ghost use Rattle.dtd_model.specs.TableOf.{table_of};
ghost use Rattle.page_reader.specs.Laws.{IsReaderOf};

use dtd_model::Dtd;

/// By each definition the reader puts out exactly the tokens of each page.
pub fn reads_pages(dtd: &Dtd)
    ensures { IsReaderOf (table_of dtd.now) }
{
    let _ = dtd;
    page_narrowing::laws::narrow_tokens_read();
}
