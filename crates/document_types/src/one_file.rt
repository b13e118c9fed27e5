//! A source of files with one file.

ghost use Rattle.document_types.specs.OneFile.{file_alone};

use io_edge::{FileFault, FileKind, Files};
use std::alloc::Global;
use text_base::Bytes;
use text_base::limits::FILE_LIMIT;

/// A source that has this text under this name and no other file, and never fails.
#[derive(Drop)]
pub struct OneFile {
    /// The name of the file.
    pub name: &'static str,
    /// The bytes of the file.
    pub text: Bytes,
    /// How often it was asked for another name.
    pub misses: u64,
    /// How often it was asked.
    pub reads: u64,
}

impl Files for OneFile {
    ghost content = { λ f. file_alone f.name.now f.text };

    ghost faults = { λ f. 0 };

    ghost misses = { λ f. f.misses };

    ghost reads = { λ f. f.reads };

    fn read(&mut self, alloc: Global, name: &str, _: FileKind) -> Result<Bytes, FileFault> {
        self.reads = self.reads.saturating_add(1);
        if name != self.name {
            self.misses = self.misses.saturating_add(1);
            return Err(FileFault::Missing);
        }
        if self.text.len() > FILE_LIMIT {
            return Err(FileFault::TooLong {
                len: self.text.len() as u64,
            });
        }
        Ok(self.text.copy(alloc)?)
    }
}
