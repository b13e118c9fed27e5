//! What joins join, row after row in one list.

ghost use Rattle.std.specs.Prelude.{◌≡◌, [], true, take, drop, length, slice_get, Some, OnOk};
ghost use Rattle.ssa_form.specs.Views.{versions_seen};
ghost use Rattle.ssa_form.specs.JoinRows.{ends_before, rows_in, row_in, AreEnds, PutsOne, PutsAll, PutsRow};

use crate::version::{Definition, Version};
use std::alloc::Global;
use text_base::NoMemory;

/// Rows of versions.
#[derive(Debug, Drop)]
pub struct JoinRows {
    /// The versions of all rows.
    versions: Vec<Version>,
    /// Where each row ends, in their order.
    ends: Vec<usize>,
}

// The first versions of a list.
fn front(versions: &[Version], count: usize) -> &[Version]
    ensures { result.now ≡ take count versions.now }
{
    if count < versions.len() {
        &versions[..count]
    } else {
        versions
    }
}

// Those behind them.
fn behind(versions: &[Version], count: usize) -> &[Version]
    ensures { result.now ≡ drop count versions.now }
{
    if count < versions.len() {
        &versions[count..]
    } else {
        &[]
    }
}

// Are both the same definition?
fn is_same_definition(one: Definition, other: Definition) -> bool
    ensures { result ≡ true → one ≡ other }
{
    match (one, other) {
        (Definition::At(point), Definition::At(another)) => point.0 == another.0,
        (
            Definition::Entry { function, slot },
            Definition::Entry {
                function: number,
                slot: another,
            },
        ) => function == number && slot.0 == another.0,
        (Definition::At(_), Definition::Entry { .. })
        | (Definition::Entry { .. }, Definition::At(_)) => false,
    }
}

/// Are both the same version?
pub fn is_same(one: Version, other: Version) -> bool
    ensures { result ≡ true → one ≡ other }
{
    match (one, other) {
        (Version::Of(definition), Version::Of(another)) => is_same_definition(definition, another),
        (
            Version::Join { point, slot },
            Version::Join {
                point: another,
                slot: number,
            },
        ) => point.0 == another.0 && slot.0 == number.0,
        (Version::Of(_), Version::Join { .. }) | (Version::Join { .. }, Version::Of(_)) => false,
    }
}

// Is it the version before it once more?
fn is_repeated(before: Option<Version>, version: Version) -> bool
    ensures { result ≡ true → before ≡ Some version }
{
    match before {
        Some(before) => is_same(before, version),
        None => false,
    }
}

// Puts a version behind others, but where it is the one before it.
fn put_one(
    all: &mut Vec<Version>,
    before: Option<Version>,
    version: Version,
) -> Result<(), NoMemory>
    ensures { OnOk result (PutsOne all.old.items all.new.items before version) }
{
    if !is_repeated(before, version) {
        all.push(version)?;
    }
    Ok(())
}

// Puts versions behind others, and one that comes twice in a row once.
fn put_all(all: &mut Vec<Version>, versions: &[Version]) -> Result<(), NoMemory>
    ensures { OnOk result (PutsAll all.old.items all.new.items (versions_seen versions.now)) }
{
    let mut before = None;
    for version in versions {
        put_one(all, before, *version)?;
        before = Some(*version);
    }
    Ok(())
}

impl JoinRows {
    /// No rows.
    pub fn new(alloc: Global) -> JoinRows
        ensures rows { rows_in result ≡ [] }
        ensures ends { AreEnds (length result.versions.items) 0 result.ends.items }
        ensures len { length result.ends.items ≡ 0 }
    {
        JoinRows {
            versions: Vec::new(alloc),
            ends: Vec::new(alloc),
        }
    }

    /// How many rows there are.
    pub fn len(&self) -> usize
        ensures { result ≡ length self.now.ends.items }
    {
        self.ends.len()
    }

    // Where the row of a number begins, which is where the one before it ends.
    fn start_of(&self, number: usize) -> usize
        ensures { result ≡ ends_before 0 self.now.ends.items number }
    {
        match number.checked_sub(1) {
            Some(before) => self.ends.get(before).copied().unwrap_or(0),
            None => 0,
        }
    }

    /// The row of a number; nothing where there is none. In constant time.
    pub fn row(&self, number: usize) -> &[Version]
        ensures { result.now ≡ row_in (slice_get (rows_in self.now) number) }
    {
        match self.ends.get(number) {
            Some(end) => behind(front(&self.versions, *end), self.start_of(number)),
            None => &[],
        }
    }

    /// One row more, of these versions, in which one that comes twice in a row stands once.
    pub fn push(&mut self, versions: &[Version]) -> Result<(), NoMemory>
        ensures { OnOk result (AreEnds (length self.old.versions.items) 0 self.old.ends.items
            → PutsRow self.old self.new (versions_seen versions.now)) }
    {
        put_all(&mut self.versions, versions)?;
        self.ends.push(self.versions.len())?;
        Ok(())
    }
}
