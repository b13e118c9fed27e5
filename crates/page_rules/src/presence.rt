//! Attributes that have to stand.

ghost use Rattle.std.specs.Prelude.{◌≡◌};
ghost use Rattle.dtd_model.specs.Table.{declared_of, presence_of};
ghost use Rattle.page_model.specs.Attributes as spec;

use crate::is_word;
use dtd_model::{AttrRule, Need};

/// Whether the attribute has to stand in a tag of this name: it is required, or the `xmlns` of
/// `html` (XHTML 1.0, 3.1.1).
pub fn must_stand(name: &[char], rule: &AttrRule) -> bool
    ensures { result ≡ spec.must_stand name.now (declared_of rule.now) }
{
    is_required(&rule.need)
        || (is_word(name, b"html") && rule.name.as_slice() == b"xmlns".as_slice())
}

fn is_required(need: &Need) -> bool
    ensures { result ≡ spec.is_required (presence_of need.now) }
{
    match need {
        Need::Required => true,
        Need::Implied | Need::Default | Need::Fixed(_) => false,
    }
}
