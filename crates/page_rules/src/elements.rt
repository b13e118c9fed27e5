//! Declared elements.

ghost use Rattle.dtd_model.specs.TableOf.{table_of};
ghost use Rattle.page_rules.specs.Found.{IsElement};

use dtd_index::IndexedDtd;
use text_base::Elem;

/// The element of this name; none where none is declared.
pub fn element(indexed: &IndexedDtd<'_>, name: &[char]) -> Option<Elem>
    ensures { IsElement (table_of indexed.now.dtd.now).elements name.now result }
{
    match indexed.element(name) {
        Some(place) => Some(Elem(place as u16)),
        None => None,
    }
}
