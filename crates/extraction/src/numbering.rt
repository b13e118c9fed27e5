//! Nonterminals of names.

ghost use Rattle.std.specs.Prelude.{IfOk};
ghost use Rattle.point_listing.specs.Forms.{form_seen};
ghost use Rattle.system_writing.specs.Forms.{form_of};
ghost use Rattle.extraction.specs.Steps.{IsPaired, IsNameNumbered, IsFormNumbered};

use crate::work::Work;
use loose_sets::SetName;
use numbered_sets::{count, number};
use point_listing::NamedForm;
use system_writing::RowForm;
use text_base::NoMemory;

/// The nonterminal of a name; a new name is put behind the others, with a new one.
pub fn number_name(work: &mut Work, name: SetName) -> Result<u64, NoMemory>
    requires { IsPaired work.old }
    ensures { IfOk result (IsNameNumbered work.old work.new name) }
{
    let (place, _) = number(&mut work.names, name)?;
    if count(&work.names) > work.numbers.len() {
        let set = work.draft.add_set()?;
        work.numbers.push(set)?;
        return Ok(set);
    }
    Ok(work.numbers[place])
}

/// The form by the nonterminals of its names.
pub fn number_form(work: &mut Work, form: NamedForm) -> Result<RowForm, NoMemory>
    requires { IsPaired work.old }
    ensures { IfOk result
        (λ row. IsFormNumbered work.old work.new (form_seen form) (form_of row)) }
{
    match form {
        NamedForm::Text(text) => Ok(RowForm::Text(text)),
        NamedForm::Same(name) => {
            let set = number_name(work, name)?;
            Ok(RowForm::Same(set))
        }
        NamedForm::Join(first, second) => {
            let before = number_name(work, first)?;
            let behind = number_name(work, second)?;
            Ok(RowForm::Join(before, behind))
        }
        NamedForm::Before(text, name) => {
            let set = number_name(work, name)?;
            Ok(RowForm::Before(text, set))
        }
        NamedForm::Request => Ok(RowForm::Request),
        NamedForm::Integer => Ok(RowForm::Integer),
        NamedForm::Apply(op, name) => {
            let set = number_name(work, name)?;
            Ok(RowForm::Apply(op, set))
        }
        NamedForm::Yes => Ok(RowForm::Yes),
        NamedForm::Where(text, name) => {
            let set = number_name(work, name)?;
            Ok(RowForm::Where(text, set))
        }
    }
}
