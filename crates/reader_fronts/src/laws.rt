//! The laws. Each function does nothing, and stands for the law that its contract states.

ghost use Rattle.dtd_model.specs.TableOf.{table_of};
ghost use Rattle.page_reader.specs.States.{next_state, tokens_at, tokens_behind};
ghost use Rattle.merged_reader.specs.States.{merged_next};
ghost use Rattle.reader_fronts.specs.Laws.{EndsBad, LeadsAlike};

use dtd_model::Dtd;

/// By each definition two pages with equal fronts lead each reader to one state, bad ones too.
pub fn fronts_lead_alike(dtd: &Dtd)
    ensures plain { LeadsAlike (table_of dtd.now) (next_state (table_of dtd.now)) }
    ensures merged { LeadsAlike (table_of dtd.now) (merged_next (table_of dtd.now)) }
{
    let _ = dtd;
    exact_fronts::laws::equal_fronts();
}

/// By each definition each reader puts out the same behind a page with a bad front, whatever more
/// stands behind it.
pub fn bad_fronts_end(dtd: &Dtd)
    ensures plain { let table = table_of dtd.now in
        EndsBad table (next_state table) (tokens_at table) (tokens_behind table) }
    ensures merged { let table = table_of dtd.now in
        EndsBad table (merged_next table) (tokens_at table) (tokens_behind table) }
{
    page_narrowing::laws::narrow_tokens_read();
    page_reader::laws::reads_pages(dtd);
    merged_reader::laws::reads_pages(dtd);
}
