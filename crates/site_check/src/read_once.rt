//! A source of files that keeps what another one gave.

use crate::kept_files::KeptFiles;

/// Files of another source, which is asked once for each name: what it gave is kept, within
/// `KEPT_LIMIT` bytes in all.
#[derive(Drop)]
pub struct ReadOnce<F> {
    pub(crate) inner: F,
    pub(crate) kept: KeptFiles,
    pub(crate) missed: u64,
    pub(crate) reads: u64,
}
