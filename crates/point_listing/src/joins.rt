//! What joins take over.

ghost use Rattle.std.specs.Prelude.{◌≡◌, map, OnOk};
ghost use Rattle.ssa_form.specs.Views.{version_seen};
ghost use Rattle.loose_sets.specs.Uses.{version_back};
ghost use Rattle.loose_sets.specs.Members.{link_forms};
ghost use Rattle.point_listing.specs.Links.{links_seen};
ghost use Rattle.point_listing.specs.Places.{Adds};

use crate::{NamedForm, by_numbers, push_link};
use loose_sets::Aspect;
use ssa_form::{Version, Versions};
use text_base::{NoMemory, Point, Slot};

// Of versions, in turn.
#[tactic(auto, using(crate::proofs::PlaceLemmas::ends))]
fn push_all(forms: &mut Vec<NamedForm>, links: &[Version], aspect: Aspect) -> Result<(), NoMemory>
    ensures { OnOk result (Adds forms.old.items forms.new.items
        (link_forms (map version_back (map version_seen links.now)) aspect)) }
{
    for link in links {
        push_link(forms, aspect, by_numbers(*link))?;
    }
    Ok(())
}

/// What the join of a slot at a point takes over, behind the others. Linear in what it joins.
pub fn push_links(
    forms: &mut Vec<NamedForm>,
    versions: &Versions,
    aspect: Aspect,
    point: u64,
    slot: u64,
) -> Result<(), NoMemory>
    ensures { OnOk result (Adds forms.old.items forms.new.items
        (link_forms (links_seen versions.now point slot) aspect)) }
{
    let join = Version::Join {
        point: Point(point),
        slot: Slot(slot),
    };
    push_all(forms, versions.links(join), aspect)
}
