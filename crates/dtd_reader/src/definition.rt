//! Document type definitions from files.

ghost use Rattle.std.specs.Prelude.{◌≡◌, false, IfOk, IfErr};
ghost use Rattle.io_edge.specs.Told.{Stays};
ghost use Rattle.dtd_model.specs.TableOf as tables;
ghost use Rattle.dtd_texts.specs.Spells.{DtdSpells};
ghost use Rattle.dtd_reader.specs.Choices.{have_large};
ghost use Rattle.dtd_reader.specs.Source.{source_call, IsCalm};
ghost use Rattle.dtd_reader.specs.Refusals.{IsCause, IsSameRefusal};

use crate::choices::have_large_choice;
use crate::limits::VALUE_LIMIT;
use crate::reading::read_text;
use crate::refusal::DtdRefusal;
use dtd_model::Dtd;
use dtd_tables::{TableRefusal, table_of};
use io_edge::Files;
use std::alloc::Global;

// The refusal of declarations.
fn refusal_of(refusal: TableRefusal) -> DtdRefusal
    ensures { IsSameRefusal refusal result }
{
    match refusal {
        TableRefusal::Twice(name) => DtdRefusal::Twice { name },
        TableRefusal::Undeclared(name) => DtdRefusal::Undeclared { name },
        TableRefusal::Refused(at) => DtdRefusal::NotDtd { at },
        TableRefusal::LeftOut(at) => DtdRefusal::LeftOut { at },
        TableRefusal::Limit(count) => DtdRefusal::Limit { count },
        TableRefusal::Memory => DtdRefusal::Memory,
    }
}

/// The document type definition in the file of this name (XML 1.0, 2.8, 3.2, 3.3 and 4.2), in time
/// linear in its text once all references are replaced. A page needs no document type declaration.
/// The name of an external entity is looked for beside the file in which its declaration ends, and
/// is refused by its text alone where it is absolute or leads out of the root, a folder; the file
/// itself may stand anywhere.
///
/// # Errors
///
/// Each of [`DtdRefusal`] with its cause. Where several causes hold, those of files and references
/// and of the text up to there are told before those of the declarations. `NotDtd` has the first
/// place of a fault up to where the text breaks; a declaration before is judged by the elements
/// that are declared up to there.
pub fn read_dtd<F: Files>(
    alloc: Global,
    files: &mut F,
    root: &str,
    name: &str,
) -> Result<Dtd, DtdRefusal>
    ensures spelled { IfOk result
        (λ dtd. DtdSpells (F.content files.new) root.now name.now (tables.table_of dtd)) }
    ensures few { IfOk result (λ dtd. have_large (tables.table_of dtd).elements ≡ false) }
    ensures calm { IfOk result
        (λ dtd. IsCalm (source_call (F.content files.new) (F.faults files.old) (F.faults files.new)
        (F.misses files.old) (F.misses files.new))) }
    ensures refused { IfErr result
        (IsCause (source_call (F.content files.new) (F.faults files.old) (F.faults files.new)
        (F.misses files.old) (F.misses files.new)) root.now name.now) }
    ensures stays { Stays (F.content files.old) (F.content files.new) }
{
    let reading = read_text(alloc, files, root, name)?;
    match table_of(alloc, reading.written.as_slice(), &reading.generals) {
        Ok(dtd) => {
            let large = have_large_choice(dtd.elements.as_slice());
            if large {
                return Err(DtdRefusal::Limit {
                    count: VALUE_LIMIT + 1,
                });
            }
            Ok(dtd)
        }
        Err(refusal) => Err(refusal_of(refusal)),
    }
}
