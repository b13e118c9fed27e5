//! The point whose forms are listed.

ghost use Rattle.std.specs.Prelude.{◌≡◌, Some, None, MatchOption, slice_get};
ghost use Rattle.point_listing.specs.Forms.{form_seen};
ghost use Rattle.loose_sets.specs.Uses as uses;
ghost use Rattle.point_listing.specs.Views.{key_seen};

use crate::{NamedForm, ToldKey, version_read};
use loose_sets::{Aspect, Half, SetName, SetVersion};
use ssa_form::Versions;
use text_base::Slot;

/// A point whose forms are listed, with the keys that are told apart and the versions that points
/// read.
#[derive(Clone, Copy)]
pub struct Place<'a> {
    pub told: &'a [ToldKey],
    pub versions: &'a Versions,
    pub point: u64,
}

impl<'a> Place<'a> {
    ghost use Rattle.point_listing.specs.Places.{told_of, at_of};

    /// The version of a slot at the point. In constant time.
    pub fn version(&self, slot: Slot) -> SetVersion
        ensures { result ≡ at_of self.now self.now.point slot.0 }
    {
        version_read(self.versions, self.point, slot)
    }

    /// Each text of the value of a slot at the point.
    pub fn used(&self, aspect: Aspect, slot: Slot) -> NamedForm
        ensures { form_seen result ≡ uses.used (at_of self.now) self.now.point aspect slot.0 }
    {
        NamedForm::Same(SetName::Value(aspect, self.version(slot)))
    }

    /// Each text of all members of the value of a slot at the point.
    pub fn all_used(&self, half: Half, slot: Slot) -> NamedForm
        ensures { form_seen result ≡ uses.all_used (at_of self.now) self.now.point half slot.0 }
    {
        NamedForm::Same(SetName::Members(half, self.version(slot)))
    }

    /// The key of a number among those that are told apart, if there is one.
    pub fn told_key(&self, number: u64) -> Option<&'a ToldKey>
        ensures { MatchOption result (slice_get (told_of self.now) number ≡ None)
            (λ key. slice_get (told_of self.now) number ≡ Some (key_seen key.now)) }
    {
        self.told.get(number as usize)
    }
}
