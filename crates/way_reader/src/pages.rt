//! The ways in which the pieces of a page begin, by a definition of documents.

ghost use Rattle.std.specs.Prelude.{◌≡◌, length, IfOk};
ghost use Rattle.dtd_model.specs.TableOf.{table_of};
ghost use Rattle.way_reader.specs.Laws.{IsWayReaderOf};
ghost use Rattle.way_reader.specs.PageWays.{ArePageWays};
ghost use Rattle.way_reader.specs.Reader.{starts_at};

use crate::reader::PieceWays;
use crate::starting::Numbers;
use dtd_index::IndexedDtd;
use dtd_model::Dtd;
use form_maker::{Made, all_forms};
use std::alloc::Global;
use text_base::NoMemory;

/// How many elements a definition declares.
fn element_count(dtd: &Dtd) -> u16
    ensures { result ≡ length (table_of dtd.now).elements }
{
    dtd.elements.len() as u16
}

impl PieceWays {
    /// The ways in which the pieces of a page begin, by a definition: its forms as a whole. The
    /// reader by them puts out exactly the tokens of each page.
    pub fn of_pages(alloc: Global, indexed: &IndexedDtd<'_>) -> Result<PieceWays, NoMemory>
        ensures forms { IfOk result (ArePageWays (table_of indexed.now.dtd.now)) }
        ensures reads { IfOk result
            (λ ways. IsWayReaderOf (table_of indexed.now.dtd.now) ways.arena (starts_at ways.starts)) }
    {
        let Made { arena, numbers } = all_forms(alloc, indexed)?;
        let forms = Numbers {
            alloc,
            numbers: numbers.as_slice(),
            elements: element_count(indexed.dtd),
        };
        let starts = forms.starts()?;
        Ok(PieceWays { arena, starts })
    }
}
