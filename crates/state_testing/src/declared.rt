//! Declarations by their names.

ghost use Rattle.std.specs.Prelude.{◌≡◌};
ghost use Rattle.dtd_model.specs.TableOf.{table_of};
ghost use Rattle.page_model.specs.Attributes as attributes;

use dtd_index::IndexedDtd;
use page_rules::element;

/// Whether an element of this name is declared (XML 1.0, 3.2).
pub fn is_element(indexed: &IndexedDtd<'_>, name: &[char]) -> bool
    ensures { result ≡ attributes.is_some_rule
        (attributes.find_rule (table_of indexed.now.dtd.now).elements name.now) }
{
    element(indexed, name).is_some()
}
