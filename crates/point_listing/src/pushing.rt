//! Forms that are put behind others.

ghost use Rattle.std.specs.Prelude.{◌∷◌, [], OnOk};
ghost use Rattle.least_sets.specs.Forms.{text_form};
ghost use Rattle.point_listing.specs.Forms.{form_seen};
ghost use Rattle.loose_sets.specs.Uses.{where_so};
ghost use Rattle.point_listing.specs.Places.{Adds};

use crate::NamedForm;
use std::alloc::Global;
use text_base::{Bytes, NoMemory};

/// Puts a form behind the others.
pub fn push_form(forms: &mut Vec<NamedForm>, form: NamedForm) -> Result<(), NoMemory>
    ensures { OnOk result (Adds forms.old.items forms.new.items (form_seen form ∷ [])) }
{
    forms.push(form)?;
    Ok(())
}

/// Puts a form behind the others, where the test holds.
#[tactic(auto, using(crate::proofs::PlaceLemmas::ends), unfolding(loose_sets::specs::Uses::where_so))]
pub fn push_where(forms: &mut Vec<NamedForm>, holds: bool, form: NamedForm) -> Result<(), NoMemory>
    ensures { OnOk result
        (Adds forms.old.items forms.new.items (where_so holds (form_seen form ∷ []))) }
{
    if holds {
        push_form(forms, form)
    } else {
        Ok(())
    }
}

/// Puts a text behind the others.
pub fn push_text(alloc: Global, forms: &mut Vec<NamedForm>, text: &[u8]) -> Result<(), NoMemory>
    ensures { OnOk result (Adds forms.old.items forms.new.items (text_form text.now ∷ [])) }
{
    let text = Bytes::from_slice(alloc, text)?;
    push_form(forms, NamedForm::Text(text))
}
