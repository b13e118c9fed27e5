//! What a lister is.

ghost use Rattle.std.specs.Prelude.{◌≡◌, List, IfOk};
ghost use Rattle.least_sets.specs.Forms.{Form};
ghost use Rattle.loose_sets.specs.declared.name.SetName as plain;
ghost use Rattle.point_listing.specs.Forms.{forms_seen};
ghost use Rattle.extraction.specs.Asked.{AreAsked};

use loose_sets::SetName;
use point_listing::NamedForm;
use std::alloc::Global;
use text_base::NoMemory;

/// Has for each name of which it may be asked a list of forms: all ways in which the texts of the
/// set are made.
pub trait Lister {
    /// The names of which it may be asked.
    ghost asks: { Self → plain.SetName → Type 0 };

    /// The forms of a name, in turn.
    ghost lists: { Self → plain.SetName → List (Form plain.SetName) };

    /// The forms of a name. Of each name in them it may be asked too.
    fn forms(&self, alloc: Global, name: SetName) -> Result<Vec<NamedForm>, NoMemory>
        requires { asks self.now name }
        ensures forms { IfOk result (λ forms. forms_seen forms.items ≡ lists self.now name) }
        ensures asked { IfOk result (λ forms. AreAsked (asks self.now) (forms_seen forms.items)) };
}
