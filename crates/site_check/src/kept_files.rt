//! Files that were read, kept by their names.

ghost use Rattle.std.specs.Prelude.{◌≡◌, ◌≤◌};
ghost use Rattle.site_check.specs.Kept.{total_size};
ghost use Rattle.site_check.specs.Short.{AreShort};
ghost use Rattle.site_check.specs.declared.kept_files.TheConstants.{KEPT_LIMIT};

use indexmap::IndexMap;
use text_base::Bytes;

/// The most bytes that the files have in all which a source keeps: 256 MiB.
pub const KEPT_LIMIT: usize = 268_435_456;

/// What is kept of a name that was asked for.
#[derive(Debug, Drop)]
pub enum KeptFile {
    /// The bytes of its file.
    Found(Bytes),
    /// That there is no such file.
    Missing,
    /// That its file is too long.
    Long,
}

/// What is kept of the files that were asked for, by their names, of which none stands twice.
#[derive(Drop)]
pub struct KeptFiles {
    pub(crate) files: IndexMap<Bytes, KeptFile>,
    pub(crate) size: usize,
    pub(crate) is_full: bool,
    ghost counted: { size ≡ total_size files.entries },
    ghost within: { size ≤ KEPT_LIMIT },
    ghost short: { AreShort files.entries },
}
