//! Files are kept, and given back.

ghost use Rattle.std.specs.Prelude.{◌≡◌, ◌≢◌, ◌≤◌, ◌<◌, ◌++◌, ◌∷◌, [], length, None, Some, OnOk, OnErr, bytes_eq, true, false};
ghost use Rattle.std.specs.Map.{lookup};
ghost use Rattle.text_base.specs.declared.limits.TheConstants.{FILE_LIMIT};
ghost use Rattle.indexmap.specs.IndexMap.{spare};
ghost use Rattle.site_check.specs.Kept.{file_size, keep, nothing_kept};
ghost use Rattle.site_check.specs.Views.{kept_of, AnswersKept};

use crate::kept_files::{KEPT_LIMIT, KeptFile, KeptFiles};
use indexmap::IndexMap;
use io_edge::FileFault;
use std::alloc::Global;
use text_base::{Bytes, NoMemory};

// Puts a file that is not there behind the others, for which there is room.
fn insert(files: &mut IndexMap<Bytes, KeptFile>, name: Bytes, file: KeptFile)
    requires room { 0 < spare files.old }
    requires new { lookup (bytes_eq name) files.old.entries ≡ None }
    ensures { files.new.entries ≡ files.old.entries ++ (name, file) ∷ [] }
{
    match files.insert(name, file) {
        Ok(_) => {}
        Err(_) => unreachable!(),
    }
}

// A copy of the bytes of a file, or that it is missing; none where it is too long.
fn answer(alloc: Global, file: &KeptFile) -> Option<Result<Bytes, FileFault>>
    ensures { AnswersKept (Some file.now) result }
{
    match file {
        KeptFile::Found(bytes) => match bytes.copy(alloc) {
            Ok(copy) => Some(Ok(copy)),
            Err(_) => Some(Err(FileFault::Memory)),
        },
        KeptFile::Missing => Some(Err(FileFault::Missing)),
        KeptFile::Long => None,
    }
}

impl KeptFiles {
    /// Nothing is kept. Takes no memory.
    pub(crate) fn new(alloc: Global) -> KeptFiles
        ensures { kept_of result ≡ nothing_kept }
    {
        KeptFiles {
            files: IndexMap::new(alloc),
            size: 0,
            is_full: false,
        }
    }

    /// What is answered for the name by what is kept of it; none where nothing is, or its file is
    /// too long.
    pub(crate) fn answer(&self, alloc: Global, name: &Bytes) -> Option<Result<Bytes, FileFault>>
        ensures { AnswersKept (lookup (bytes_eq name.now) (kept_of self.now).files) result }
    {
        match self.files.get(name) {
            Some(file) => answer(alloc, file),
            None => None,
        }
    }

    /// Whether something is kept of the name.
    fn has(&self, name: &Bytes) -> bool
        ensures some { result ≡ true → lookup (bytes_eq name.now) (kept_of self.now).files ≢ None }
        ensures none { result ≡ false → lookup (bytes_eq name.now) (kept_of self.now).files ≡ None }
    {
        match self.files.get(name) {
            Some(_) => true,
            None => false,
        }
    }

    /// Makes room for one more name. For want of memory nothing changes.
    pub(crate) fn reserve(&mut self) -> Result<(), NoMemory>
        ensures room { OnOk result (0 < spare self.new.files) }
        ensures same { kept_of self.new ≡ kept_of self.old }
    {
        self.files.reserve(1)?;
        Ok(())
    }

    /// Keeps that there is no file of this name, or that it is too long, unless something is kept of
    /// it.
    pub(crate) fn keep_none(&mut self, name: Bytes, file: KeptFile)
        requires room { 0 < spare self.old.files }
        requires none { file_size file ≡ 0 }
        ensures { kept_of self.new ≡ keep (kept_of self.old) name file }
    {
        if !self.is_full && !self.has(&name) {
            insert(&mut self.files, name, file);
        }
    }

    /// Keeps the bytes of the file of this name, unless something is kept of it. For want of memory
    /// nothing changes.
    pub(crate) fn keep_bytes(
        &mut self,
        alloc: Global,
        name: Bytes,
        bytes: &Bytes,
    ) -> Result<(), NoMemory>
        requires room { 0 < spare self.old.files }
        requires short { length bytes.now ≤ FILE_LIMIT }
        ensures ok { OnOk result
            (kept_of self.new ≡ keep (kept_of self.old) name (KeptFile.Found bytes.now)) }
        ensures err { OnErr result (kept_of self.new ≡ kept_of self.old) }
    {
        if self.is_full || self.has(&name) {
            return Ok(());
        }
        if bytes.len() > KEPT_LIMIT - self.size {
            self.is_full = true;
            return Ok(());
        }
        let copy = bytes.copy(alloc)?;
        self.size += bytes.len();
        insert(&mut self.files, name, KeptFile::Found(copy));
        Ok(())
    }
}
