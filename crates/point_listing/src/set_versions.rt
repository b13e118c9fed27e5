//! The versions of slots by names of sets: which version a point reads, by numbers alone, for every
//! point and slot. Where a point reads a slot it is the one that ssa_form has, so that versions are
//! exact for the rows by versions (`AreExact` of loose_sets, in proofs/). Below stands ssa_form.

ghost use Rattle.std.specs.Prelude.{◌≡◌};
ghost use Rattle.ssa_form.specs.Views as ssa;
ghost use Rattle.loose_sets.specs.Uses.{version_back};
ghost use Rattle.point_listing.specs.Reading.{read_at};

use loose_sets::SetVersion;
use ssa_form::{Definition, Version, Versions};
use text_base::{Point, Slot};

/// A version by numbers alone.
pub fn by_numbers(version: Version) -> SetVersion
    ensures { result ≡ version_back (ssa.version_seen version) }
{
    match version {
        Version::Of(Definition::At(point)) => SetVersion::Point(point.0),
        Version::Of(Definition::Entry { function, slot }) => SetVersion::Entry(function, slot.0),
        Version::Join { point, slot } => SetVersion::Join(point.0, slot.0),
    }
}

/// The version of a slot at a point; a join there where the point does not read it. In constant
/// time.
pub fn version_read(versions: &Versions, point: u64, slot: Slot) -> SetVersion
    ensures { result ≡ read_at versions.now point slot.0 }
{
    match versions.version_at(Point(point), slot) {
        Some(version) => by_numbers(version),
        None => SetVersion::Join(point, slot.0),
    }
}
