//! Versions: which definitions are behind what a point reads of a slot.

use crate::kinds::{points_of, script};
use ssa_form::{Definition, Version, Versions, ssa};
use std::alloc::Global;
use std::test::Fail;
use text_base::{NoMemory, Point, Slot};

// What defines the slot by a version, and by all that are behind it: the point, or none for the
// entry of the function.
fn behind(
    alloc: Global,
    versions: &Versions,
    version: Version,
) -> Result<Vec<Option<u64>>, NoMemory> {
    let mut seen = Vec::new(alloc);
    let mut found = Vec::new(alloc);
    seen.push(version)?;
    for place in 0..100usize {
        match seen.get(place).copied() {
            None => return Ok(found),
            Some(Version::Of(Definition::At(point))) => found.push(Some(point.0))?,
            Some(Version::Of(Definition::Entry { .. })) => found.push(None)?,
            Some(join) => {
                for link in versions.links(join) {
                    if !seen.as_slice().contains(link) {
                        seen.push(*link)?;
                    }
                }
            }
        }
    }
    Ok(found)
}

// Whether exactly these definitions of slot 0 are behind what a point of a script reads of it; and
// one alone with no join between.
fn has_behind(
    alloc: Global,
    text: &str,
    point: u64,
    wanted: &[Option<u64>],
) -> Result<bool, NoMemory> {
    let mut source = script(alloc, text)?;
    let Some(flow) = points_of(alloc, &mut source) else {
        return Ok(false);
    };
    let versions = ssa(alloc, &flow)?;
    let Some(version) = versions.version_at(Point(point), Slot(0)) else {
        return Ok(false);
    };
    let found = behind(alloc, &versions, version)?;
    Ok(
        found.len() == wanted.len()
            && (wanted.len() != 1 || versions.links(version).is_empty())
            && wanted
                .iter()
                .all(|definition| found.as_slice().contains(definition)),
    )
}

/// The variable is slot 0, and the literal of an assignment stands at the point before it.
#[test]
fn definitions_that_reach(rt: HostRuntime) -> Result<(), Fail> {
    for (text, point, wanted) in [
        (
            "<?php $x = '<b>'; $x = 'a'; echo $x;",
            4,
            [Some(3)].as_slice(),
        ),
        (
            "<?php if (isset($_GET['a'])) { $x = 'b'; } echo $x;",
            7,
            [Some(5), None].as_slice(),
        ),
        (
            "<?php if (isset($_GET['a'])) { $x = 'b'; } else { $x = 'c'; } echo $x;",
            9,
            [Some(5), Some(8)].as_slice(),
        ),
        (
            "<?php $x = 'a'; while (isset($_GET['b'])) { echo $x; $x = 'c'; } echo $x;",
            6,
            [Some(1), Some(9)].as_slice(),
        ),
        (
            "<?php $x = 'a'; while (isset($_GET['b'])) { echo $x; $x = 'c'; } echo $x;",
            11,
            [Some(1), Some(9)].as_slice(),
        ),
        (
            "<?php $x = 'a'; if (isset($_GET['a'])) { $y = 'b'; } echo $x;",
            9,
            [Some(1)].as_slice(),
        ),
        (
            "<?php $x = 'a'; while (isset($_GET['b'])) { echo $x; } echo $x;",
            6,
            [Some(1)].as_slice(),
        ),
    ] {
        assert!(rt; has_behind(rt.alloc(), text, point, wanted)?, "{text}");
    }
    Ok(())
}
