//! The check of one page.

ghost use Rattle.std.specs.Prelude.{◌≡◌, length, IfErr, OnOk};
ghost use Rattle.content_automata.specs.Decides.{Decides};
ghost use Rattle.dtd_model.specs.TableOf.{table_of};
ghost use Rattle.page_model.specs.Valid.{Valid};
ghost use Rattle.page_validator.specs.Faults.{IsCause, IsWithin, IsVerdict};

use crate::decode::{byte_len, decoded, first_fault};
use crate::refusal::PageRefusal;
use crate::walk::walk;
use content_automata::{ContentRefusal, Contents, build};
use dtd_index::IndexedDtd;
use dtd_model::Dtd;
use std::alloc::Global;

/// Whether the page is valid by the definition (XML 1.0, 2.8 and 3; XHTML 1.0, 3.1.1). `Ok` comes
/// only where it is, and `PageFault` only where it is not; its place is the beginning of the
/// piece that no valid page goes on with, or the page's end. `Limit` comes only where the content
/// models of the definition pass a limit (content_automata).
pub fn check_page(alloc: Global, dtd: &Dtd, page: &[u8]) -> Result<(), PageRefusal>
    ensures valid { OnOk result (Valid (table_of dtd.now) page.now) }
    ensures fault { IfErr result (λ refusal. IsCause refusal (table_of dtd.now) page.now) }
    ensures within { IfErr result (λ refusal. IsWithin refusal page.now) }
{
    match build(alloc, dtd) {
        Ok(contents) => check_by(alloc, dtd, &contents, page),
        Err(ContentRefusal::Limit { count }) => Err(PageRefusal::Limit { count }),
        Err(ContentRefusal::Memory) => Err(PageRefusal::Memory),
    }
}

// The same, by the automata of the content models.
fn check_by(alloc: Global, dtd: &Dtd, contents: &Contents, page: &[u8]) -> Result<(), PageRefusal>
    requires decides { Decides (table_of dtd.now) contents.now }
    requires elements { length contents.now.0 ≡ length (table_of dtd.now).elements }
    ensures { IsVerdict (table_of dtd.now) page.now result }
{
    let Some(characters) = decoded(alloc, page)? else {
        return Err(PageRefusal::PageFault {
            at: first_fault(page) as u64,
        });
    };
    let characters = characters.as_slice();
    let indexed = IndexedDtd::new(alloc, dtd)?;
    match walk(alloc, &indexed, contents, characters)? {
        None => Ok(()),
        Some(left) => Err(PageRefusal::PageFault {
            at: byte_len(&characters[..characters.len() - left], page.len()) as u64,
        }),
    }
}
