//! The law. The function does nothing, and stands for the law that its contract states.

ghost use Rattle.dtd_model.specs.TableOf.{table_of};
ghost use Rattle.merged_reader.specs.Laws.{IsMergedReaderOf};

use dtd_model::Dtd;

/// By each definition the reader puts out exactly the tokens of each page.
pub fn reads_pages(dtd: &Dtd)
    ensures { IsMergedReaderOf (table_of dtd.now) }
{
    page_reader::laws::reads_pages(dtd);
}
